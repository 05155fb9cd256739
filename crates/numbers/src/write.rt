// Writing a number.
ghost use Rattle.std.specs.Prelude.{◌≡◌, ◌++◌, is_ok, if◌then◌else◌, vec_len, OnOk};
ghost use Rattle.numbers.specs.Writing.{written, ReadsBack};

use arrayvec::ArrayVec;
use std::alloc::AllocError;

// Appends a number. What is appended reads back as that number, whatever follows it.
pub fn write_number(out: &mut Vec<u8>, value: u64) -> Result<(), AllocError>
    ensures bytes { out.new.items ≡ (if is_ok result then out.old.items ++ written value else out.old.items) }
    ensures reads { OnOk result (ReadsBack value (vec_len out.old) out.new.items) }
{
    let groups = groups_of(value);
    out.extend_from_slice(groups.as_slice())
}

// The groups of a number, at most ten of them.
fn groups_of(value: u64) -> ArrayVec<u8, 10>
    ensures { result.items ≡ written value }
{
    let mut groups = ArrayVec::new();
    let mut rest = value;
    // both casts are below 256, which is proved: `try_from` would add a fault that cannot come
    while rest >= 128 {
        groups.push(128 + (rest % 128) as u8);
        rest /= 128;
    }
    groups.push(rest as u8);
    groups
}
