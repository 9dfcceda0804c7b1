// Numbers of any length.
use crate::same::same;
use module_text::any_number;

#[test]
fn caps_long_numbers(rt: HostRuntime) {
    for (digits, wanted) in [
        ("", None),
        ("0", Some(0)),
        ("00000000000000000000000000012", Some(12)),
        ("18446744073709551614", Some(18_446_744_073_709_551_614)),
        ("18446744073709551616", Some(18_446_744_073_709_551_615)),
        ("99999999999999999999", Some(18_446_744_073_709_551_615)),
        ("1_", None),
    ] {
        same(
            &rt,
            (digits, any_number(digits.as_bytes())),
            (digits, wanted),
        );
    }
}
