//! The two forms of Extended JSON, and which doubles have a text.
ghost use Rattle.std.specs.Prelude.{◌≡◌};

/// One of the two forms of MongoDB Extended JSON v2, in one of two layouts. Each tree of a form is
/// read.
///
/// ```
/// let (count, options) = (Bson::Int32(5), Options::default());
/// let canonical = count.to_text(alloc, options, Form::Canonical)?;
/// println!(rt; "{canonical}")?; // {"$numberInt":"5"}
/// let relaxed = count.to_text(alloc, options, Form::Relaxed)?;
/// println!(rt; "{relaxed}")?; // 5
/// ```
#[derive(Clone, Copy, Debug, Drop, PartialEq, Eq)]
pub enum Form {
    /// Every type is kept.
    Canonical,
    /// Plain integers, and dates as texts from 1970 to the end of the year 9999. An Int64 that
    /// fits an i32 reads back as an Int32.
    Relaxed,
    /// The canonical form as libbson and PyMongo write it: with keys as given `t` is before `i`,
    /// `pattern` before `options`, and `$ref` before `$id`.
    MongoDbCanonical,
    /// The relaxed form as libbson and PyMongo write it: in addition a fraction of a second has three
    /// digits.
    MongoDbRelaxed,
}

impl Form {
    ghost use Rattle.bson_scalar.specs.Forms.{is_mongodb, is_relaxed};

    /// Returns whether the form has numbers as they are.
    pub fn is_relaxed(self) -> bool
        ensures { result ≡ is_relaxed self }
    {
        match self {
            Form::Canonical => false,
            Form::Relaxed => true,
            Form::MongoDbCanonical => false,
            Form::MongoDbRelaxed => true,
        }
    }

    /// Returns whether the form has the layout of libbson and PyMongo.
    pub fn is_mongodb(self) -> bool
        ensures { result ≡ is_mongodb self }
    {
        match self {
            Form::Canonical => false,
            Form::Relaxed => false,
            Form::MongoDbCanonical => true,
            Form::MongoDbRelaxed => true,
        }
    }
}

/// How the two forms are laid out. Each layout is read.
///
/// ```
/// let bytes = br#"{"$timestamp": {"t": 1, "i": 2}}"#;
/// let value = Bson::from_text(alloc, Options::default(), bytes)?;
/// let options = Options {
///     key_order: KeyOrder::AsGiven,
///     ..Options::default()
/// };
/// let specified = value.to_text(alloc, options, Form::Relaxed)?;
/// println!(rt; "{specified}")?; // {"$timestamp":{"i":2,"t":1}}
/// let options = Options {
///     layout: Layout::MongoDb,
///     ..options
/// };
/// let mongodb = value.to_text(alloc, options, Form::Relaxed)?;
/// println!(rt; "{mongodb}")?; // {"$timestamp":{"t":1,"i":2}}
/// ```
#[derive(Clone, Copy, Debug, Drop, PartialEq, Eq)]
pub enum Layout {
    /// Keys of a wrapper ascend, and a fraction of a second has no zeros at its end.
    Specified,
    /// As libbson and PyMongo write them, and as the tables of MongoDB Extended JSON v2 show them: a
    /// fraction of a second has three digits, and with keys as given `t` is before `i`, `pattern`
    /// before `options`, and `$ref` before `$id`.
    MongoDb,
}

impl Layout {
    ghost use Rattle.bson_scalar.specs.Forms.{form_in};

    /// Returns the form in this layout.
    pub fn form(self, form: Form) -> Form
        ensures { result ≡ form_in self form }
    {
        match (self, form) {
            (Layout::MongoDb, Form::Canonical) => Form::MongoDbCanonical,
            (Layout::MongoDb, Form::Relaxed) => Form::MongoDbRelaxed,
            (_, form) => form,
        }
    }
}

/// Which doubles are read and written. Zeros, infinities and NaNs are in each.
///
/// ```
/// let options = Options {
///     doubles: Doubles::Finite,
///     ..Options::default()
/// };
/// let value = Bson::from_text(alloc, options, b"[0.5, 1]")?;
/// println!(rt; "{value:?}")?; // Array([Double(0x3fe0000000000000), Int32(1)])
/// ```
#[derive(Clone, Copy, Debug, Drop, PartialEq, Eq)]
pub enum Doubles {
    /// No others: a double that is finite and no zero has no tree, and a JSON number is an i64.
    Special,
    /// Every double: a finite one is its shortest decimal, under `$numberDouble` in the canonical
    /// form and as a JSON number in the relaxed one; any decimal number there is read as the double
    /// nearest to it, and so is a JSON number that is no i64.
    Finite,
}
