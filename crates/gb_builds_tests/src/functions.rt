//! The functions of a table, removed from it and added to another.
use gb_provider::table::{Transform, TransformTable};
use std::test::Fail;

/// A table of functions; the tests put numbers in place of functions.
type Table = TransformTable<u8, u8, u8, u8>;

/// The use of a function, and its number.
fn described(stored: &Transform<u8, u8, u8, u8>) -> (&'static str, u8) {
    match stored {
        Transform::Map(number) => ("map", *number),
        Transform::FlatMap(number) => ("flatMap", *number),
        Transform::Zip(number) => ("zip", *number),
        Transform::Test(number) => ("test", *number),
    }
}

#[test]
fn functions_move_from_a_table_to_another(rt: HostRuntime) -> Result<(), Fail> {
    let mut first = Table::new(rt.alloc());
    first.add_under("upper", Transform::Map(1))?;
    first.add_under("isSet", Transform::Test(2))?;
    let mut second = Table::new(rt.alloc());
    for (name, stored) in first.into_entries()? {
        second.add_under(name.as_str(), stored)?;
    }
    let entries = second.into_entries()?;
    let [upper, is_set] = entries.as_slice() else {
        return Err(Fail::new("two functions"));
    };
    assert_eq!(rt;
        (upper.0.as_str(), described(&upper.1)),
        ("upper", ("map", 1))
    );
    assert_eq!(rt;
        (is_set.0.as_str(), described(&is_set.1)),
        ("isSet", ("test", 2))
    );
    Ok(())
}
