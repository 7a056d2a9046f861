//! The form that a run writes.
ghost use Rattle.std.specs.Prelude.{◌≡◌, [], ◌∷◌, map, string_bytes, IfSome, None};
ghost use Rattle.bson_convert.specs.Messages.{name_of_mode};
ghost use Rattle.bson_convert.specs.declared.mode.Mode.{Mode};

/// The form in which a value is written.
///
/// ```
/// let mut args = Vec::new(alloc);
/// args.push(String::from_str(alloc, "relaxed")?)?;
/// println!(rt; "{:?}", mode_of(&args))?; // Some(Relaxed)
/// ```
#[derive(Clone, Copy, PartialEq, Eq, Debug)]
pub enum Mode {
    /// The canonical form of MongoDB Extended JSON v2, which keeps every kind.
    Canonical,
    /// The relaxed form, with plain numbers, and dates as texts.
    Relaxed,
    /// The text of `Display`, on one line, to be read by people.
    Show,
}

impl Mode {
    /// Returns the mode with this name: `canonical`, `relaxed` or `show`.
    pub fn from_name(name: &str) -> Option<Mode>
        ensures named { IfSome result (λ mode. name.now ≡ name_of_mode mode) }
        ensures unknown_name { result ≡ None → (mode : Mode) → name.now ≡ name_of_mode mode → ⊥ }
    {
        match name {
            "canonical" => Some(Mode::Canonical),
            "relaxed" => Some(Mode::Relaxed),
            "show" => Some(Mode::Show),
            _ => None,
        }
    }
}

/// Returns the mode that the arguments after the program's name request: its name, and nothing
/// else.
pub fn mode_of(args: &[String]) -> Option<Mode>
    ensures named { IfSome result (λ mode. map string_bytes args.now ≡ name_of_mode mode ∷ []) }
    ensures unknown_name { result ≡ None → (mode : Mode) → map string_bytes args.now ≡ name_of_mode mode ∷ [] → ⊥ }
{
    let (mode_name, extra_args) = args.split_first()?;
    if !extra_args.is_empty() {
        return None;
    }
    Mode::from_name(mode_name.as_str())
}
