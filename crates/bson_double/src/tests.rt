//! Test cases of strings and the bits of doubles. The digits are those of Python's `repr`.
use crate::{DoubleError, double_of_text, double_text, is_finite};

fn is_written_as(bits: u64, text: &str) -> bool {
    is_finite(bits) && double_text(bits).as_str() == text
}

fn is_read_as(text: &str, bits: u64) -> bool {
    double_of_text(text.as_bytes()) == Ok(bits)
}

fn is_rejected_with(text: &str, error: DoubleError) -> bool {
    double_of_text(text.as_bytes()) == Err(error)
}

#[test]
fn texts_of_doubles(rt: HostRuntime) {
    assert!(rt; is_written_as(0x4029_0000_0000_0000, "12.5"));
    assert!(rt; is_written_as(0x3FF0_0000_0000_0000, "1.0"));
    assert!(rt; is_written_as(0xBFF0_0000_0000_0000, "-1.0"));
    assert!(rt; is_written_as(0, "0.0"));
    assert!(rt; is_written_as(0x8000_0000_0000_0000, "-0.0"));
    assert!(rt; is_written_as(1, "5e-324"));
    assert!(rt; is_written_as(0x8000_0000_0000_0001, "-5e-324"));
    assert!(rt; is_written_as(0x000F_FFFF_FFFF_FFFF, "2.225073858507201e-308"));
    assert!(rt; is_written_as(0x0010_0000_0000_0000, "2.2250738585072014e-308"));
    assert!(rt; is_written_as(0x7FEF_FFFF_FFFF_FFFF, "1.7976931348623157e308"));
    assert!(rt; is_written_as(0x3FB9_9999_9999_999A, "0.1"));
    assert!(rt; is_written_as(0x3FD3_3333_3333_3334, "0.30000000000000004"));
    assert!(rt; is_written_as(0x405E_DD2F_1A9F_BE77, "123.456"));
    assert!(rt; is_written_as(0x3EE4_F8B5_88E3_68F1, "0.00001"));
    assert!(rt; is_written_as(0x3EB0_C6F7_A0B5_ED8D, "1e-6"));
    assert!(rt; is_written_as(0x4340_0000_0000_0000, "9007199254740992.0"));
    assert!(rt; is_written_as(0x4341_C379_37E0_8000, "1e16"));
    assert!(rt; is_written_as(0x43E0_0000_0000_0000, "9.223372036854776e18"));
    assert!(rt; is_written_as(0x3D30_0000_0000_0000, "5.684341886080802e-14"));
}

#[test]
fn doubles_of_texts(rt: HostRuntime) {
    assert!(rt; is_read_as("12.5", 0x4029_0000_0000_0000));
    assert!(rt; is_read_as("1", 0x3FF0_0000_0000_0000));
    assert!(rt; is_read_as("1.0", 0x3FF0_0000_0000_0000));
    assert!(rt; is_read_as("1E0", 0x3FF0_0000_0000_0000));
    assert!(rt; is_read_as("1e+0", 0x3FF0_0000_0000_0000));
    assert!(rt; is_read_as("+1.5", 0x3FF8_0000_0000_0000));
    assert!(rt; is_read_as(".5", 0x3FE0_0000_0000_0000));
    assert!(rt; is_read_as("5.", 0x4014_0000_0000_0000));
    assert!(rt; is_read_as("005", 0x4014_0000_0000_0000));
    assert!(rt; is_read_as("-0", 0x8000_0000_0000_0000));
    assert!(rt; is_read_as("9223372036854775808", 0x43E0_0000_0000_0000));
    assert!(rt; is_read_as("1.7976931348623158e308", 0x7FEF_FFFF_FFFF_FFFF));

    // Halfway between two doubles the even one is nearest, and just above it the greater.
    assert!(rt; is_read_as("9007199254740993", 0x4340_0000_0000_0000));
    assert!(rt;
        is_read_as(
            "9007199254740993.0000000000000000000000001",
            0x4340_0000_0000_0001
        )
    );
    assert!(rt; is_read_as("9007199254740995", 0x4340_0000_0000_0002));

    // A number below half of the least double rounds to zero, with its sign.
    assert!(rt; is_read_as("1e-400", 0));
    assert!(rt; is_read_as("-1e-400", 0x8000_0000_0000_0000));
    assert!(rt; is_read_as("2e-324", 0));
    assert!(rt; is_read_as("3e-324", 1));
    assert!(rt; is_read_as("2.225073858507201e-308", 0x000F_FFFF_FFFF_FFFF));
}

#[test]
fn refused_texts(rt: HostRuntime) {
    assert!(rt; is_rejected_with("1e400", DoubleError::OutOfRange));
    assert!(rt; is_rejected_with("-1e400", DoubleError::OutOfRange));
    assert!(rt; is_rejected_with("1.7976931348623159e308", DoubleError::OutOfRange));
    assert!(rt; is_rejected_with("", DoubleError::NotANumber));
    assert!(rt; is_rejected_with(" 1.5", DoubleError::NotANumber));
    assert!(rt; is_rejected_with("1.5 ", DoubleError::NotANumber));
    assert!(rt; is_rejected_with("0x1p3", DoubleError::NotANumber));
    assert!(rt; is_rejected_with("1_0", DoubleError::NotANumber));
    assert!(rt; is_rejected_with("1,5", DoubleError::NotANumber));
    assert!(rt; is_rejected_with("1e", DoubleError::NotANumber));
    assert!(rt; is_rejected_with(".", DoubleError::NotANumber));
    assert!(rt; is_rejected_with("-", DoubleError::NotANumber));
    assert!(rt; is_rejected_with("inf", DoubleError::NotANumber));
    assert!(rt; is_rejected_with("-Infinity", DoubleError::NotANumber));
    assert!(rt; is_rejected_with("NaN", DoubleError::NotANumber));
}
