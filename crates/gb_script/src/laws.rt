//! Laws of the meaning of bytes.
ghost use Rattle.gb_script.specs.Script.{ScriptsHaveOneMeaning, SettingsHaveOneMeaning};

/// Bytes have one meaning as a script, and one as settings: a parse result, or one fault.
pub fn bytes_have_one_meaning()
    ensures script { ScriptsHaveOneMeaning }
    ensures settings { SettingsHaveOneMeaning }
{}
