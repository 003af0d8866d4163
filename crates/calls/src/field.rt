// The fields of a line.
ghost use Rattle.std.specs.Prelude.{◌≤◌, IfSome};

use text::fields::{Field, decimal_after};

// The value of a field that ends its line.
pub(crate) fn last_value(line: &[u8], field: Field) -> Option<u64>
    ensures { IfSome result (λ n. n ≤ field.value) }
{
    if field.next == line.len() {
        Some(field.value)
    } else {
        None
    }
}

// The decimal number that is a line's only field and not above most.
pub(crate) fn only_value(line: &[u8], key: &[u8], most: u64) -> Option<u64>
    ensures { IfSome result (λ n. n ≤ most) }
{
    last_value(line, decimal_after(line, 0, key, most)?)
}
