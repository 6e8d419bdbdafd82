//! The place of a query.
ghost use Rattle.std.specs.Prelude.{◌≡◌, ◌⊎◌, [], ◌∷◌, Err};
ghost use Rattle.gb_query.specs.Asked.{asked_place};

use gb_core::place::{Place, PlaceFault};
use gb_core::text::Text;
use gb_report::fault::Fault;
use std::alloc::Global;

/// The place that these texts name. There must be exactly one text.
pub fn asked_place(alloc: Global, texts: &[Text]) -> Result<Place, Fault>
    ensures { (result ≡ asked_place texts.now) ⊎ (result ≡ Err Fault.OutOfMemory) }
{
    match texts {
        [text] => read_place(alloc, text),
        _ => Err(Fault::Usage),
    }
}

fn read_place(alloc: Global, text: &Text) -> Result<Place, Fault>
    ensures { (result ≡ asked_place (text.now ∷ [])) ⊎ (result ≡ Err Fault.OutOfMemory) }
{
    match Place::read(alloc, text.as_str()) {
        Ok(place) => Ok(place),
        Err(PlaceFault::OutOfMemory) => Err(Fault::OutOfMemory),
        Err(PlaceFault::BadPlace) => bad_place(text),
    }
}

fn bad_place(text: &Text) -> Result<Place, Fault>
    ensures { (result ≡ Err (Fault.BadPlace text.now)) ⊎ (result ≡ Err Fault.OutOfMemory) }
{
    match text.copy() {
        Ok(text) => Err(Fault::BadPlace(text)),
        Err(_) => Err(Fault::OutOfMemory),
    }
}
