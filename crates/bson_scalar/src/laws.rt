//! The laws of scalars that the layer above builds on, each a fact of the definitions alone.
ghost use Rattle.std.specs.Prelude.{to_bits};
ghost use Rattle.std.specs.Float.{Float, binary64};
ghost use Rattle.bson_double.specs.DoubleText.{IsDoubleText};
ghost use Rattle.bson_scalar.specs.Laws.{ReadingIsMeaning, MeaningIsUnique, ReadIsNormal, WritingIsWritten, WrittenIfWritable, DoublesHaveTexts};
ghost use Rattle.bson_scalar.specs.Laws.{ScalarsRoundTrip, NormalIsIdempotent, NarrowingIsIdempotent};
ghost use Rattle.bson_scalar.specs.Laws.{ReadingIsMeaningIn, MeaningIsUniqueIn, ReadIsNormalIn, WritingIsWrittenIn, WrittenIfWritableIn};
ghost use Rattle.bson_scalar.specs.Laws.{DoublesHaveTextsIn, AllWritable, ScalarsRoundTripIn};
ghost use Rattle.bson_scalar.specs.TreeText.{IsDouble, float_text};
ghost use Rattle.bson_scalar.specs.declared.form.Doubles.{Doubles};

/// Proves that what reading a tree returns is its one meaning; what is read is writable.
pub fn reading()
    ensures meaning { ReadingIsMeaning }
    ensures unique { MeaningIsUnique }
    ensures normal_form { ReadIsNormal }
{}

/// Proves that writing a scalar returns the grammar's tree of its normal form, and that exactly the
/// writable scalars have one; a `Double` is writable if it is a zero, an infinity or a NaN.
pub fn writing()
    ensures written_tree { WritingIsWritten }
    ensures writable { WrittenIfWritable }
    ensures double_texts { DoublesHaveTexts }
{}

/// Proves that what is written reads back as the normal form, narrowed in the relaxed form.
pub fn round_trip()
    ensures read_back { ScalarsRoundTrip }
    ensures normal { NormalIsIdempotent }
    ensures as_read_back { NarrowingIsIdempotent }
{}

/// Proves the laws above in each mode of `Doubles`; in the mode `Finite` every scalar is writable.
pub fn each_mode()
    ensures meaning { (doubles : Doubles) → ReadingIsMeaningIn doubles }
    ensures unique { (doubles : Doubles) → MeaningIsUniqueIn doubles }
    ensures normal_form { (doubles : Doubles) → ReadIsNormalIn doubles }
    ensures written_tree { (doubles : Doubles) → WritingIsWrittenIn doubles }
    ensures writable { (doubles : Doubles) → WrittenIfWritableIn doubles }
    ensures all_writable { AllWritable }
    ensures double_texts { (doubles : Doubles) → DoublesHaveTextsIn doubles }
    ensures read_back { (doubles : Doubles) → ScalarsRoundTripIn doubles }
{}

/// Proves that the text of a finite double that is written as a JSON number is its shortest
/// decimal.
pub fn number_texts()
    ensures { (float_value : Float) → IsDouble float_value
        → IsDoubleText (to_bits binary64 float_value) (float_text float_value) }
{}
