//! Texts of records and histories, and texts that are neither.

/// Pieces of a text, one after another, then a line feed, a seal and a line feed.
macro_rules! sealed {
    ($($piece:literal),*; $seal:literal) => {
        concat!($($piece,)* "\n", $seal, "\n")
    };
}

/// The text of the record of `:gen`, which wrote `abc` to `build/a.txt`, and of a history with that
/// record alone.
pub const STORED: &str = sealed!(
    r#"{"form":2,"tasks":[{"actions":[{"args":[{"text":"abc"}],"kind":"writeText","#,
    r#""version":1}],"files":[],"outputs":[{"name":"out","place":"build/a.txt","prints":[["","#,
    r#""ba7816bf8f01cfea414140de5dae2223b00361a396177a9cb410ff61f20015ad"]],"shape":"file"}],"#,
    r#""task":":gen","values":[]}]}"#;
    "2955006ca03804ff3c46a3e49b43bc5b2d2b745a1e2409659e8f6898a6c9c2bb"
);

/// The same in the first edition, which has no versions.
pub const STORED_FIRST: &str = sealed!(
    r#"{"form":1,"tasks":[{"actions":[{"args":[{"text":"abc"}],"kind":"writeText"}],"files":[],"#,
    r#""outputs":[{"name":"out","place":"build/a.txt","prints":[["","#,
    r#""ba7816bf8f01cfea414140de5dae2223b00361a396177a9cb410ff61f20015ad"]],"shape":"file"}],"#,
    r#""task":":gen","values":[]}]}"#;
    "d075510cbf1b60d97c23d1462bc14617e7d32f2285ef1b385b1956761cf96c72"
);

/// The text of a history without records.
pub const NONE: &str = sealed!(
    r#"{"form":2,"tasks":[]}"#;
    "4bbbdae58366fdf1d42534cf64f7b3fb18f1a7ff1608e1bb496c10a8f2d5f34a"
);

/// The same in the first edition.
pub const NONE_FIRST: &str = sealed!(
    r#"{"form":1,"tasks":[]}"#;
    "dff59f90beb7381996230cc561a72744c66d1a5295b6f0c4eb3779618ad9584f"
);

/// The text of a history of `:gen`, which wrote, and of `:lib:gen`, which has nothing.
pub const BOTH: &str = sealed!(
    r#"{"form":2,"tasks":[{"actions":[{"args":[{"text":"abc"}],"kind":"writeText","#,
    r#""version":1}],"files":[],"outputs":[{"name":"out","place":"build/a.txt","prints":[["","#,
    r#""ba7816bf8f01cfea414140de5dae2223b00361a396177a9cb410ff61f20015ad"]],"shape":"file"}],"#,
    r#""task":":gen","values":[]},{"actions":[],"files":[],"outputs":[],"task":":lib:gen","#,
    r#""values":[]}]}"#;
    "61716290e48988cc7a08cc7847f403a4cad72a9779b44537bb6be2980c37ea34"
);

/// The same in the first edition.
pub const BOTH_FIRST: &str = sealed!(
    r#"{"form":1,"tasks":[{"actions":[{"args":[{"text":"abc"}],"kind":"writeText"}],"files":[],"#,
    r#""outputs":[{"name":"out","place":"build/a.txt","prints":[["","#,
    r#""ba7816bf8f01cfea414140de5dae2223b00361a396177a9cb410ff61f20015ad"]],"shape":"file"}],"#,
    r#""task":":gen","values":[]},{"actions":[],"files":[],"outputs":[],"task":":lib:gen","#,
    r#""values":[]}]}"#;
    "689d983615603d27fb0b13c0c08b034179e51c68f424072fce973be791a509a1"
);

/// The text of a history of `:a` and `:b`, which have nothing, and of `:lib:gen`, which wrote.
pub const THREE: &str = sealed!(
    r#"{"form":2,"tasks":[{"actions":[],"files":[],"outputs":[],"task":":a","values":[]},"#,
    r#"{"actions":[],"files":[],"outputs":[],"task":":b","values":[]},"#,
    r#"{"actions":[{"args":[{"text":"abc"}],"kind":"writeText","version":1}],"files":[],"#,
    r#""outputs":[{"name":"out","place":"build/a.txt","prints":[["","#,
    r#""ba7816bf8f01cfea414140de5dae2223b00361a396177a9cb410ff61f20015ad"]],"shape":"file"}],"#,
    r#""task":":lib:gen","values":[]}]}"#;
    "7547c8fd83e953c07255273924c8aa33d7968ad75cf00d43abf4df20e7a31527"
);

/// The text of the record of the first run of a task that copies files.
pub const FIRST: &str = sealed!(
    r#"{"form":2,"tasks":[{"actions":[{"args":[{"text":"x"}],"kind":"copyFiles","version":1}],"#,
    r#""files":[{"name":"src","prints":[["a","#,
    r#""6b86b273ff34fce19d6b804eff5a3f5747ada4eaa22f1d49c01e52ddb7875b4b"]]}],"#,
    r#""outputs":[{"name":"out","place":"build/o","prints":[["a","#,
    r#""d4735e3a265e16eee03f59718b9b5d03019c07d8b6c51f90da3a666eec13ab35"]],"shape":"dir"}],"#,
    r#""task":":gen","values":[["v",{"text":"v"}]]}]}"#;
    "5feb8fc68febd159ff87ebb73826bd544c84fd813c4230e74010091a4e56fb3a"
);

/// The text of a run where the file of its property `src` has other content.
pub const FILE: &str = sealed!(
    r#"{"form":2,"tasks":[{"actions":[{"args":[{"text":"x"}],"kind":"copyFiles","version":1}],"#,
    r#""files":[{"name":"src","prints":[["a","#,
    r#""19581e27de7ced00ff1ce50b2047e7a567c76b1cbaebabe5ef03f7c3017bb5b7"]]}],"#,
    r#""outputs":[{"name":"out","place":"build/o","prints":[["a","#,
    r#""d4735e3a265e16eee03f59718b9b5d03019c07d8b6c51f90da3a666eec13ab35"]],"shape":"dir"}],"#,
    r#""task":":gen","values":[["v",{"text":"v"}]]}]}"#;
    "164474b23bfbb911010f4dfd92882988af2d33642fd3610e0c83c19b6e5e9780"
);

/// The text of a run with an action of another version.
pub const VERSION: &str = sealed!(
    r#"{"form":2,"tasks":[{"actions":[{"args":[{"text":"x"}],"kind":"copyFiles","version":2}],"#,
    r#""files":[{"name":"src","prints":[["a","#,
    r#""6b86b273ff34fce19d6b804eff5a3f5747ada4eaa22f1d49c01e52ddb7875b4b"]]}],"#,
    r#""outputs":[{"name":"out","place":"build/o","prints":[["a","#,
    r#""d4735e3a265e16eee03f59718b9b5d03019c07d8b6c51f90da3a666eec13ab35"]],"shape":"dir"}],"#,
    r#""task":":gen","values":[["v",{"text":"v"}]]}]}"#;
    "a023118785d5048d1b049dc56473a4acc58b0bf8ca0bfc38bd2d6cf36114bd09"
);

/// The text of a run with another argument.
pub const ARGUMENT: &str = sealed!(
    r#"{"form":2,"tasks":[{"actions":[{"args":[{"text":"y"}],"kind":"copyFiles","version":1}],"#,
    r#""files":[{"name":"src","prints":[["a","#,
    r#""6b86b273ff34fce19d6b804eff5a3f5747ada4eaa22f1d49c01e52ddb7875b4b"]]}],"#,
    r#""outputs":[{"name":"out","place":"build/o","prints":[["a","#,
    r#""d4735e3a265e16eee03f59718b9b5d03019c07d8b6c51f90da3a666eec13ab35"]],"shape":"dir"}],"#,
    r#""task":":gen","values":[["v",{"text":"v"}]]}]}"#;
    "974a38b15983bfbdb3ad8348124e7e12768aab1e981431766e3a6eedea9d8b15"
);

/// The text of a run with another input value.
pub const VALUE: &str = sealed!(
    r#"{"form":2,"tasks":[{"actions":[{"args":[{"text":"x"}],"kind":"copyFiles","version":1}],"#,
    r#""files":[{"name":"src","prints":[["a","#,
    r#""6b86b273ff34fce19d6b804eff5a3f5747ada4eaa22f1d49c01e52ddb7875b4b"]]}],"#,
    r#""outputs":[{"name":"out","place":"build/o","prints":[["a","#,
    r#""d4735e3a265e16eee03f59718b9b5d03019c07d8b6c51f90da3a666eec13ab35"]],"shape":"dir"}],"#,
    r#""task":":gen","values":[["v",{"text":"w"}]]}]}"#;
    "dfd12ac5097660fe9f45bf4ad28ede1b54d4f3c3de2db4b146c1deca5004dde9"
);

/// The text of a run where the file of its output has other content.
pub const OUTPUT: &str = sealed!(
    r#"{"form":2,"tasks":[{"actions":[{"args":[{"text":"x"}],"kind":"copyFiles","version":1}],"#,
    r#""files":[{"name":"src","prints":[["a","#,
    r#""6b86b273ff34fce19d6b804eff5a3f5747ada4eaa22f1d49c01e52ddb7875b4b"]]}],"#,
    r#""outputs":[{"name":"out","place":"build/o","prints":[["a","#,
    r#""19581e27de7ced00ff1ce50b2047e7a567c76b1cbaebabe5ef03f7c3017bb5b7"]],"shape":"dir"}],"#,
    r#""task":":gen","values":[["v",{"text":"v"}]]}]}"#;
    "75afd8d901019e9e40cfc1a8ad584ec32f8e905409a71cb2006a9b47aa4caca7"
);

/// Texts that are no record of `:gen`: forms, numbers, keys, space, digests, places, names, and
/// orders.
pub const NO_RECORDS: [&str; 25] = [
    sealed!(
        r#"{"form":3,"tasks":[{"actions":[{"args":[{"text":"abc"}],"kind":"writeText","#,
        r#""version":1}],"files":[],"outputs":[{"name":"out","place":"build/a.txt","prints":[["","#,
        r#""ba7816bf8f01cfea414140de5dae2223b00361a396177a9cb410ff61f20015ad"]],"shape":"file"}],"#,
        r#""task":":gen","values":[]}]}"#;
        "6ebf2dd369ceb6a32d967ff2d2708804bfcbf510b74de4bf6f9f2a3397a8176a"
    ),
    sealed!(
        r#"{"form":1,"tasks":[{"actions":[{"args":[{"text":"abc"}],"kind":"writeText","#,
        r#""version":1}],"files":[],"outputs":[{"name":"out","place":"build/a.txt","prints":[["","#,
        r#""ba7816bf8f01cfea414140de5dae2223b00361a396177a9cb410ff61f20015ad"]],"shape":"file"}],"#,
        r#""task":":gen","values":[]}]}"#;
        "d977b9b9d7923bb2314bb99d09332ee667ccf53d3857f21252b481a1fae5fc0b"
    ),
    sealed!(
        r#"{"form":2.0,"tasks":[{"actions":[{"args":[{"text":"abc"}],"kind":"writeText","#,
        r#""version":1}],"files":[],"outputs":[{"name":"out","place":"build/a.txt","prints":[["","#,
        r#""ba7816bf8f01cfea414140de5dae2223b00361a396177a9cb410ff61f20015ad"]],"shape":"file"}],"#,
        r#""task":":gen","values":[]}]}"#;
        "4d48ec78b09bba53c8ff371d798e286ac566ca0fcf135848f88bb1ecc3eaf459"
    ),
    sealed!(
        r#"{"form":2,"tasks":[{"actions":[{"args":[{"text":"abc"}],"kind":"writeText","#,
        r#""version":1.0}],"files":[],"outputs":[{"name":"out","place":"build/a.txt","prints":[["","#,
        r#""ba7816bf8f01cfea414140de5dae2223b00361a396177a9cb410ff61f20015ad"]],"shape":"file"}],"#,
        r#""task":":gen","values":[]}]}"#;
        "2b3de985c12438c3794d3330e81ea5438daed7664966169bcf0f9dbde1557f06"
    ),
    sealed!(
        r#"{"form":2,"tasks":[{"actions":[{"args":[{"text":"abc"}],"kind":"writeText","#,
        r#""version":4294967296}],"files":[],"outputs":[{"name":"out","place":"build/a.txt","#,
        r#""prints":[["","ba7816bf8f01cfea414140de5dae2223b00361a396177a9cb410ff61f20015ad"]],"#,
        r#""shape":"file"}],"task":":gen","values":[]}]}"#;
        "12540a7b9f7a0a3fecc69648064cd421f051588e746845d288b9e234b830139a"
    ),
    sealed!(
        r#"{"form":2,"tasks":[{"actions":[{"args":[{"text":"abc"}],"kind":"writeText","#,
        r#""version":-1}],"files":[],"outputs":[{"name":"out","place":"build/a.txt","prints":[["","#,
        r#""ba7816bf8f01cfea414140de5dae2223b00361a396177a9cb410ff61f20015ad"]],"shape":"file"}],"#,
        r#""task":":gen","values":[]}]}"#;
        "6a735d57aa627866e24b2326f62bf839b253341b381715e9652e6c9d99ec91bc"
    ),
    sealed!(
        r#"{"form":2,"tasks":[{"actions":[{"kind":"writeText","args":[{"text":"abc"}],"#,
        r#""version":1}],"files":[],"outputs":[{"name":"out","place":"build/a.txt","prints":[["","#,
        r#""ba7816bf8f01cfea414140de5dae2223b00361a396177a9cb410ff61f20015ad"]],"shape":"file"}],"#,
        r#""task":":gen","values":[]}]}"#;
        "27b0e91b77344f2855aed8a996cdf03ce5aeb24efcf59b4004233699b920c3be"
    ),
    sealed!(
        r#"{"form":2,"tasks":[{"actions":[{"args":[{"text":"abc"}],"kind":"writeText","version":1,"#,
        r#""version":1}],"files":[],"outputs":[{"name":"out","place":"build/a.txt","prints":[["","#,
        r#""ba7816bf8f01cfea414140de5dae2223b00361a396177a9cb410ff61f20015ad"]],"shape":"file"}],"#,
        r#""task":":gen","values":[]}]}"#;
        "af4ed22abe7f78f185c9f78aa03a71b122872be0f07f67ce2582671d05ea4920"
    ),
    sealed!(
        r#"{"form":2, "tasks":[{"actions":[{"args":[{"text":"abc"}],"kind":"writeText","#,
        r#""version":1}],"files":[],"outputs":[{"name":"out","place":"build/a.txt","prints":[["","#,
        r#""ba7816bf8f01cfea414140de5dae2223b00361a396177a9cb410ff61f20015ad"]],"shape":"file"}],"#,
        r#""task":":gen","values":[]}]}"#;
        "a158b1972b3cb42b309c20c85c22ddfb2194abfe9099e000a73a2cf2d7f51680"
    ),
    sealed!(
        r#"{"form":2,"tasks":[{"actions":[{"args":[{"text":"abc"}],"kind":"writeText","#,
        r#""version":1}],"files":[],"outputs":[{"name":"out","place":"build/a.txt","prints":[["","#,
        r#""BA7816BF8F01CFEA414140DE5DAE2223B00361A396177A9CB410FF61F20015AD"]],"shape":"file"}],"#,
        r#""task":":gen","values":[]}]}"#;
        "e8e98d542052e1cae07f06aecfda947388c8dfc2e70f6ed75ec794a18beecfa9"
    ),
    sealed!(
        r#"{"form":2,"tasks":[{"actions":[{"args":[{"text":"abc"}],"kind":"writeText","#,
        r#""version":1}],"files":[],"outputs":[{"name":"out","place":"build//a.txt","prints":[["","#,
        r#""ba7816bf8f01cfea414140de5dae2223b00361a396177a9cb410ff61f20015ad"]],"shape":"file"}],"#,
        r#""task":":gen","values":[]}]}"#;
        "894eae95af7894ec65bf11097ec4b669e8fe501fa912c3637e31faebce2d7ce4"
    ),
    sealed!(
        r#"{"form":2,"tasks":[{"actions":[{"args":[{"text":"abc"}],"kind":"writeText","#,
        r#""version":1}],"files":[],"outputs":[{"name":"out","place":"../a.txt","prints":[["","#,
        r#""ba7816bf8f01cfea414140de5dae2223b00361a396177a9cb410ff61f20015ad"]],"shape":"file"}],"#,
        r#""task":":gen","values":[]}]}"#;
        "b7b58062bb886abd1253d2a0ee9c727e23bed2a90ff8bc369479a9f7798d4b7e"
    ),
    sealed!(
        r#"{"form":2,"tasks":[{"actions":[{"args":[{"text":"abc"}],"kind":"1t","version":1}],"#,
        r#""files":[],"outputs":[{"name":"out","place":"build/a.txt","prints":[["","#,
        r#""ba7816bf8f01cfea414140de5dae2223b00361a396177a9cb410ff61f20015ad"]],"shape":"file"}],"#,
        r#""task":":gen","values":[]}]}"#;
        "58284cf4bd205456af13ac1c55cc6e224c42000e145d9eac3bc5a9628edacad5"
    ),
    sealed!(
        r#"{"form":2,"tasks":[{"actions":[{"args":[{"text":"abc"}],"kind":"writeText","#,
        r#""version":1}],"files":[],"outputs":[{"name":"","place":"build/a.txt","prints":[["","#,
        r#""ba7816bf8f01cfea414140de5dae2223b00361a396177a9cb410ff61f20015ad"]],"shape":"file"}],"#,
        r#""task":":gen","values":[]}]}"#;
        "0d8bd0eda2511eca2279bbb49bc115de6efd94c24a28fcc3e8aa9c6590beceee"
    ),
    sealed!(
        r#"{"form":2,"tasks":[{"actions":[{"args":[{"text":"abc"}],"kind":"writeText","#,
        r#""version":1}],"files":[],"outputs":[{"name":"out","place":"build/a.txt","prints":[["b","#,
        r#""ba7816bf8f01cfea414140de5dae2223b00361a396177a9cb410ff61f20015ad"],["a","#,
        r#""ba7816bf8f01cfea414140de5dae2223b00361a396177a9cb410ff61f20015ad"]],"shape":"file"}],"#,
        r#""task":":gen","values":[]}]}"#;
        "f9e66b02b82303f3ddb21011ebe243b6863a35afc713dfdd20cbeb90b2b5742a"
    ),
    sealed!(
        r#"{"form":2,"tasks":[{"actions":[{"args":[{"text":"abc"}],"kind":"writeText","#,
        r#""version":1}],"files":[],"outputs":[{"name":"out","place":"build/a.txt","prints":[["a","#,
        r#""ba7816bf8f01cfea414140de5dae2223b00361a396177a9cb410ff61f20015ad"],["a","#,
        r#""ba7816bf8f01cfea414140de5dae2223b00361a396177a9cb410ff61f20015ad"]],"shape":"file"}],"#,
        r#""task":":gen","values":[]}]}"#;
        "8442233209f6ae3346d0b5c180aebac8e2136c33ae962d658cf76ba5f9fe42f3"
    ),
    sealed!(
        r#"{"form":2,"tasks":[{"actions":[{"args":[{"text":"abc"}],"kind":"writeText","#,
        r#""version":1}],"files":[],"outputs":[{"name":"out","place":"build/a.txt","prints":[["","#,
        r#""ba7816bf8f01cfea414140de5dae2223b00361a396177a9cb410ff61f20015ad"]],"shape":"fil"}],"#,
        r#""task":":gen","values":[]}]}"#;
        "96da42d93749a75d842b9246911c7b518cc5d8d83657ff2a400ca90a8fbdcc7e"
    ),
    sealed!(
        r#"{"form":2,"tasks":[{"actions":[{"args":[{"text":"abc"}],"kind":"writeText","#,
        r#""version":1}],"files":[],"outputs":[{"name":"out","place":"build/a.txt","prints":[["","#,
        r#""ba7816bf8f01cfea414140de5dae2223b00361a396177a9cb410ff61f20015ad"]],"shape":"file"}],"#,
        r#""task":":other","values":[]}]}"#;
        "a7486c4dc3e0880c4b20461448f3d804232b46ab29b545b4132a342a3e34a2e6"
    ),
    sealed!(
        r#"{"form":2,"tasks":[{"actions":[{"args":[{"text":"abc"}],"kind":"writeText","#,
        r#""version":1}],"files":[],"outputs":[{"name":"out","place":"build/a.txt","prints":[["","#,
        r#""ba7816bf8f01cfea414140de5dae2223b00361a396177a9cb410ff61f20015ad"]],"shape":"file"}],"#,
        r#""task":":gen","values":[],"x":[]}]}"#;
        "383110d9fd0c045de3f6be053c4105d52b876ca7e663222f4aa3c4b57185d792"
    ),
    sealed!(
        r#"{"form":2,"tasks":[{"actions":[{"args":[{"text":"abc"}],"kind":"writeText","#,
        r#""version":1}],"files":[],"outputs":[{"name":"out","place":"build/a.txt","prints":[["","#,
        r#""ba7816bf8f01cfea414140de5dae2223b00361a396177a9cb410ff61f20015ad"]],"shape":"file"}],"#,
        r#""task":":gen","values":{}}]}"#;
        "15c43f310c4e635e366f2662b73a71b7f22648b0db9e1c5aa7e94c3222015e6b"
    ),
    sealed!(
        r#"{"form":2,"tasks":[{"actions":[{"args":[{"text":"abc","flag":true}],"kind":"writeText","#,
        r#""version":1}],"files":[],"outputs":[{"name":"out","place":"build/a.txt","prints":[["","#,
        r#""ba7816bf8f01cfea414140de5dae2223b00361a396177a9cb410ff61f20015ad"]],"shape":"file"}],"#,
        r#""task":":gen","values":[]}]}"#;
        "ec57ba474150e736bf7e71570fe006886f1d52d2dc18f46be04a088aa183801e"
    ),
    sealed!(
        r#"{"form":2,"tasks":[{"actions":[{"args":[{"text":"abc"}],"kind":"writeText","#,
        r#""version":1}],"files":[],"outputs":[{"name":"out","place":"build/a.txt","prints":[["","#,
        r#""ba7816bf8f01cfea414140de5dae2223b00361a396177a9cb410ff61f20015ad"]],"shape":"file"}],"#,
        r#""task":":gen","values":[["b",{"text":"x"}],["a",{"text":"y"}]]}]}"#;
        "ddd135c6fb3d7157d1b9bfe59ed7dee44ac90321e3bb702641ced9a58712f215"
    ),
    sealed!(
        r#"{"form":2,"tasks":[{"actions":[{"args":[{"text":"abc"}],"kind":"writeText","#,
        r#""version":1}],"files":[],"outputs":[{"name":"out","place":"build/a.txt","prints":[["","#,
        r#""ba7816bf8f01cfea414140de5dae2223b00361a396177a9cb410ff61f20015ad"]],"shape":"file"}],"#,
        r#""task":":gen","values":[["a",{"text":"x"}],["a",{"text":"x"}]]}]}"#;
        "07838895c24cd513e8ed714d599f830c7670838d8b17f33d4face2f6b9cd207d"
    ),
    sealed!(
        r#"{"form":2,"tasks":[{"actions":[{"args":[{"text":"abc"}],"kind":"writeText","#,
        r#""version":1}],"files":[{"name":"b","prints":[]},{"name":"a","prints":[]}],"#,
        r#""outputs":[{"name":"out","place":"build/a.txt","prints":[["","#,
        r#""ba7816bf8f01cfea414140de5dae2223b00361a396177a9cb410ff61f20015ad"]],"shape":"file"}],"#,
        r#""task":":gen","values":[]}]}"#;
        "d48b63b807bb9ae8f2b60d4949557d18ecb5d3d92605db580c8aaa429a8c5c4a"
    ),
    sealed!(
        r#"{"form":2,"tasks":[{"actions":[{"args":[{"text":"abc"}],"kind":"writeText","#,
        r#""version":1}],"files":[],"outputs":[{"name":"out","place":"build/a.txt","prints":[["","#,
        r#""ba7816bf8f01cfea414140de5dae2223b00361a396177a9cb410ff61f20015ad"]],"shape":"file"},"#,
        r#"{"name":"a","place":"build/a.txt","prints":[["","#,
        r#""ba7816bf8f01cfea414140de5dae2223b00361a396177a9cb410ff61f20015ad"]],"shape":"file"}],"#,
        r#""task":":gen","values":[]}]}"#;
        "97fafa097e0b569911d8bf96b8d05bfd4f3351f798fd0bb4da170065c7d66a0b"
    ),
];

/// Texts that are no history: paths out of order and twice, other forms, keys, space and paths, and
/// bad seals.
pub const NO_HISTORIES: [&str; 27] = [
    sealed!(
        r#"{"form":2,"tasks":[{"actions":[],"files":[],"outputs":[],"task":":lib:gen","values":[]},"#,
        r#"{"actions":[],"files":[],"outputs":[],"task":":gen","values":[]}]}"#;
        "5a0d208840e5ecd7ea8410524f164368811172a1167efb0b56b95408de4c9f56"
    ),
    sealed!(
        r#"{"form":2,"tasks":[{"actions":[],"files":[],"outputs":[],"task":":gen","values":[]},"#,
        r#"{"actions":[],"files":[],"outputs":[],"task":":gen","values":[]}]}"#;
        "674bf1f61a5d8ece739cf44a92295127d66ec3a9b848d21638bc209c07f0d195"
    ),
    sealed!(
        r#"{"form":2,"tasks":[{"actions":[],"files":[],"outputs":[],"task":":gen","values":[]},"#,
        r#"{"actions":[{"args":[{"text":"abc"}],"kind":"writeText","version":1}],"files":[],"#,
        r#""outputs":[{"name":"out","place":"build/a.txt","prints":[["","#,
        r#""ba7816bf8f01cfea414140de5dae2223b00361a396177a9cb410ff61f20015ad"]],"shape":"file"}],"#,
        r#""task":":gen","values":[]}]}"#;
        "e6ceefb0015856cd5638f947ec15d6514040bb52b632765058f9870273565404"
    ),
    sealed!(
        r#"{"form":2,"tasks":[{"actions":[],"files":[],"outputs":[],"task":":gen","values":[]},"#,
        r#"{"actions":[],"files":[],"outputs":[],"task":":lib:gen","values":[]},{"actions":[],"#,
        r#""files":[],"outputs":[],"task":":gen","values":[]}]}"#;
        "e1419085c80c7ad25c7fa9cec51a695456b2c0a1c85025809d7e1488d27cb33c"
    ),
    sealed!(
        r#"{"form":3,"tasks":[{"actions":[],"files":[],"outputs":[],"task":":gen","values":[]},"#,
        r#"{"actions":[],"files":[],"outputs":[],"task":":lib:gen","values":[]}]}"#;
        "85affe9990bc4fae8629ffe8a261af0378e9c866b4fa7a3a9157ca6bacd3335a"
    ),
    sealed!(
        r#"{"form":0,"tasks":[{"actions":[],"files":[],"outputs":[],"task":":gen","values":[]},"#,
        r#"{"actions":[],"files":[],"outputs":[],"task":":lib:gen","values":[]}]}"#;
        "c57bcb11d276d171f3dff992d110e9bacf43d0e85a9bf795e47268693318d638"
    ),
    sealed!(
        r#"{"form":2.0,"tasks":[{"actions":[],"files":[],"outputs":[],"task":":gen","values":[]},"#,
        r#"{"actions":[],"files":[],"outputs":[],"task":":lib:gen","values":[]}]}"#;
        "f9c2d6a02e3cce6fcfa838fe33f81c1b785a008f60e38e514358b0782e2b6d77"
    ),
    sealed!(
        r#"{"form":1,"tasks":[{"actions":[{"args":[{"text":"abc"}],"kind":"writeText","#,
        r#""version":1}],"files":[],"outputs":[{"name":"out","place":"build/a.txt","prints":[["","#,
        r#""ba7816bf8f01cfea414140de5dae2223b00361a396177a9cb410ff61f20015ad"]],"shape":"file"}],"#,
        r#""task":":gen","values":[]},{"actions":[],"files":[],"outputs":[],"task":":lib:gen","#,
        r#""values":[]}]}"#;
        "cda713df97e772687e066cfe5163bb752f99d4db4f02e5464d20164b2505cebb"
    ),
    sealed!(
        r#"{"form":2,"tasks":[{"actions":[{"args":[{"text":"abc"}],"kind":"writeText"}],"files":[],"#,
        r#""outputs":[{"name":"out","place":"build/a.txt","prints":[["","#,
        r#""ba7816bf8f01cfea414140de5dae2223b00361a396177a9cb410ff61f20015ad"]],"shape":"file"}],"#,
        r#""task":":gen","values":[]},{"actions":[],"files":[],"outputs":[],"task":":lib:gen","#,
        r#""values":[]}]}"#;
        "d28f74fbbe0b6ae944693a0968162c1dfdf1e687473a39c69b92b5dbdf74a263"
    ),
    sealed!(
        r#"{"tasks":[{"actions":[],"files":[],"outputs":[],"task":":gen","values":[]},"#,
        r#"{"actions":[],"files":[],"outputs":[],"task":":lib:gen","values":[]}],"form":2}"#;
        "f3b83866f535a3767c1c462543a9c6be867e0a23c128dc6b77b1d2dcdbfdc299"
    ),
    sealed!(
        r#"{"form":2,"form":2,"tasks":[{"actions":[],"files":[],"outputs":[],"task":":gen","#,
        r#""values":[]},{"actions":[],"files":[],"outputs":[],"task":":lib:gen","values":[]}]}"#;
        "ba18e90f8fa6f64bd4b777a7aa5fe76116b27e764468eb2535e527d4feb2e804"
    ),
    sealed!(
        r#"{"form":2, "tasks":[{"actions":[],"files":[],"outputs":[],"task":":gen","values":[]},"#,
        r#"{"actions":[],"files":[],"outputs":[],"task":":lib:gen","values":[]}]}"#;
        "38a79c9c4884b5687c605b7226e12a183289b15a09af57c86758269be5acc421"
    ),
    sealed!(
        r#"{"form":2,"tasks":[{"actions":[],"files":[],"outputs":[],"task":":gen","values":[]},"#,
        r#" {"actions":[],"files":[],"outputs":[],"task":":lib:gen","values":[]}]}"#;
        "6ef2a94ddc7405d5832076b2fb4634815a00e71e965178c3fae7ae94e95aa8e6"
    ),
    sealed!(
        r#"{"form":2,"tasks":[{"actions":[],"files":[],"outputs":[],"task":":gen","values":[]},"#,
        r#"{"actions":[],"files":[],"outputs":[],"task":":lib:gen","values":[]}]} "#;
        "73b2036a9b74bd36e1f4644ba18d3e752348c024434168ef700dd59fe2fdcd07"
    ),
    sealed!(
        r#"{"form":2,"tasks":[{"actions":[],"files":[],"outputs":[],"task":":gen","values":[]},"#,
        r#"{"actions":[],"files":[],"outputs":[],"task":":lib:gen","values":[]},]}"#;
        "8cde67c58b9e0599216a02753ee62a0bd6d0a54a358a4ecdafee3ca902feda9e"
    ),
    sealed!(
        r#"{"form":2,"tasks":[{"actions":[],"files":[],"outputs":[],"task":":gen","values":[]},7]}"#;
        "51f611fa1e9b2ceb29b4a1de21e98492bce0dfb962e3bdf8455d4162dbbc4f05"
    ),
    sealed!(
        r#"{"form":2,"tasks":[{"actions":[],"files":[],"outputs":[],"task":":gen","values":[]},"#,
        r#"{"actions":[],"files":[],"outputs":[],"task":":lib:gen","values":[]}],"x":1}"#;
        "8e6df84758789cb40325fe83d1fbdb76efa7a6345eeb127de9c59f06676a4c81"
    ),
    sealed!(
        r#"{"form":2,"tasks":{"actions":[],"files":[],"outputs":[],"task":":gen","values":[]}}"#;
        "0b48d3286aa974984838d046d8de9eff75246015f8131ec1bdbc7ac1995bbb93"
    ),
    sealed!(
        r#"{"form":2}"#;
        "1d42f4675a4c7b2d007f9b11a68d0c790747630d4c78351d9b464acac9fbc929"
    ),
    sealed!(
        r#"{"form":2,"tasks":[{"actions":[],"files":[],"outputs":[],"task":"gen","values":[]},"#,
        r#"{"actions":[],"files":[],"outputs":[],"task":":lib:gen","values":[]}]}"#;
        "f16ef56c9801467abbb4ff928aae10ce12a6eda797214684406e433af60cfe49"
    ),
    sealed!(
        r#"{"form":2,"tasks":[{"actions":[],"files":[],"outputs":[],"task":":","values":[]},"#,
        r#"{"actions":[],"files":[],"outputs":[],"task":":lib:gen","values":[]}]}"#;
        "a278c7e675ca9597c9cff59f60ed179553f3275ddaee000f343f1e3b8c7e549e"
    ),
    sealed!(
        r#"{"form":2,"tasks":[{"actions":[],"files":[],"outputs":[],"task":":gen","values":[["a","#,
        r#"{"flag":true}],["a",{"flag":true}]]},{"actions":[],"files":[],"outputs":[],"#,
        r#""task":":lib:gen","values":[]}]}"#;
        "491b2cc9aea2baddc53be6e2f4189e8b1fc10a2dc0e38e0b8c882058cced634c"
    ),
    sealed!(
        r#"{"form":2,"tasks":[{"actions":[],"files":[],"outputs":[],"task":":gen","values":[]},"#,
        r#"{"actions":[],"files":[],"outputs":[],"task":":lib:gen","values":[]}]}"#;
        "479CF7E6EAF3DE568CF8E817887EE6F09790105EE40FB1E5B14DB89025FE3453"
    ),
    sealed!(
        r#"{"form":2,"tasks":[{"actions":[],"files":[],"outputs":[],"task":":gen","values":[]},"#,
        r#"{"actions":[],"files":[],"outputs":[],"task":":lib:gen","values":[]}]}"#;
        "479cf7e6eaf3de568cf8e817887ee6f09790105ee40fb1e5b14db89025fe3453\n"
    ),
    sealed!(
        r#"{"form":2,"tasks":[{"actions":[],"files":[],"outputs":[],"task":":gen","values":[]},"#,
        r#"{"actions":[],"files":[],"outputs":[],"task":":lib:gen","values":[]}]} "#;
        "479cf7e6eaf3de568cf8e817887ee6f09790105ee40fb1e5b14db89025fe3453"
    ),
    sealed!(
        r#"{"form":2,"tasks":[{"actions":[],"files":[],"outputs":[],"task":":gen","values":[]},"#,
        r#"{"actions":[],"files":[],"outputs":[],"task":":lib:gen","values":[]}]}"#;
        "e3b0c44298fc1c149afbf4c8996fb92427ae41e4649b934ca495991b7852b855"
    ),
    "",
];
