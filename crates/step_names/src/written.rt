//! Decimal numbers at the end of a text that has room for them.

ghost use Rattle.std.specs.Prelude.{◌≡◌, ℕ, ◌+◌, ◌*◌, ◌^◌, ◌<◌, ◌≤◌, ◌∷◌, [], ◌++◌, length, string_bytes, string_len};
ghost use Rattle.std.specs.String.{string_capacity};
ghost use Rattle.std.specs.Fmt.{decimal};
ghost use Rattle.std.specs.List.{flat_map};
ghost use Rattle.step_names.specs.Written.{branch_text};

/// How many digits the number has.
#[tactic(auto, using(crate::proofs::Digits::one_digit, crate::proofs::Digits::more_digits, crate::proofs::Digits::few_digits, crate::proofs::Digits::some_digits))]
pub fn decimal_len(number: u32) -> usize
    ensures digits { result ≡ length (decimal number) }
    ensures bound { result ≤ 10 }
    ensures fits { number < 2 ^ 32 }
{
    let mut rest = number;
    let mut len = 1;
    while rest >= 10 {
        rest /= 10;
        len += 1;
    }
    len
}

/// Puts the number's digits at the end, in room that is there.
#[tactic(auto, using(crate::proofs::Digits::one_digit, crate::proofs::Digits::more_digits, crate::proofs::Digits::last_digit, crate::proofs::Digits::only_digit))]
pub fn push_decimal(out: &mut String, number: u32)
    requires { string_len out.old + length (decimal number) ≤ string_capacity out.old }
    ensures bytes { string_bytes out.new ≡ string_bytes out.old ++ decimal number }
    ensures len { string_len out.new ≡ string_len out.old + length (decimal number) }
    ensures capacity { string_capacity out.old ≤ string_capacity out.new }
{
    if number >= 10 {
        push_decimal(out, number / 10);
    }
    push_ascii(out, b'0' + (number % 10) as u8);
}

/// Puts an ASCII character at the end, in room that is there.
pub fn push_ascii(out: &mut String, byte: u8)
    requires ascii { byte < 128 }
    requires room { string_len out.old < string_capacity out.old }
    ensures bytes { string_bytes out.new ≡ string_bytes out.old ++ byte ∷ [] }
    ensures len { string_len out.new ≡ string_len out.old + 1 }
    ensures capacity { string_capacity out.old ≤ string_capacity out.new }
{
    let _ = out.push(char::from(byte));
}

/// How many bytes the branch is written in.
pub fn branch_len(branch: &(u32, u32)) -> usize
    ensures len { result ≡ length (branch_text branch.now) }
    ensures bound { result ≤ 22 }
{
    2 + decimal_len(branch.0) + decimal_len(branch.1)
}

/// Puts the branch at the end, in room that is there.
pub fn push_branch(out: &mut String, branch: &(u32, u32))
    requires { string_len out.old + length (branch_text branch.now) ≤ string_capacity out.old }
    ensures bytes { string_bytes out.new ≡ string_bytes out.old ++ branch_text branch.now }
    ensures len { string_len out.new ≡ string_len out.old + length (branch_text branch.now) }
    ensures capacity { string_capacity out.old ≤ string_capacity out.new }
{
    push_ascii(out, b'/');
    push_decimal(out, branch.0);
    push_ascii(out, b'.');
    push_decimal(out, branch.1);
}

/// How many bytes the branches are written in, one after another.
#[tactic(auto, using(crate::proofs::Texts::rest_len, crate::proofs::Texts::no_rest_len))]
pub fn path_len(path: &[(u32, u32)]) -> usize
    requires { length path.now ≤ 31 }
    ensures len { result ≡ length (flat_map branch_text path.now) }
    ensures bound { result ≤ 22 * length path.now }
{
    let mut len = 0;
    for branch in path {
        len += branch_len(branch);
    }
    len
}

/// Puts the branches at the end, in room that is there.
#[tactic(auto, using(crate::proofs::Texts::rest_len, crate::proofs::Texts::rest_text))]
pub fn push_path(out: &mut String, path: &[(u32, u32)])
    requires { string_len out.old + length (flat_map branch_text path.now) ≤ string_capacity out.old }
    ensures bytes { string_bytes out.new ≡ string_bytes out.old ++ flat_map branch_text path.now }
    ensures len { string_len out.new ≡ string_len out.old + length (flat_map branch_text path.now) }
    ensures capacity { string_capacity out.old ≤ string_capacity out.new }
{
    for branch in path {
        push_branch(out, branch);
    }
}
