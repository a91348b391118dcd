ghost use Rattle.std.specs.Prelude.{◌≡◌, ◌<◌};
ghost use Rattle.bsp_example.specs.Rows.{either, flag_in, heard, all_of, new_left, new_flag};

use chaos_letter::Letter;

/// Whether all tell all in the phase that so many are left at.
pub fn is_all(left: u32, flag: bool) -> bool
    ensures { result ≡ all_of left flag }
{
    if left == 3 {
        return true;
    }
    if left == 2 {
        return flag;
    }
    false
}

/// The flag, or that of a letter.
fn with_letter(flag: bool, letter: &Letter) -> bool
    ensures { result ≡ either flag (flag_in letter.now) }
{
    if flag {
        return true;
    }
    letter.numbers.len() == 2
}

/// The flag, or that of one of the letters.
fn with_letters(flag: bool, letters: &[Letter]) -> bool
    ensures { result ≡ heard flag letters.now }
{
    let mut is = flag;
    'letters: for letter in letters {
        is = with_letter(is, letter);
    }
    is
}

/// The flag after a phase.
pub fn flag_after(left: u32, flag: bool, letters: &[Letter]) -> bool
    ensures { result ≡ new_flag left flag letters.now }
{
    if left == 3 {
        return with_letters(flag, letters);
    }
    flag
}

/// The phases left after a phase.
pub fn left_after(left: u32, flag: bool) -> u32
    requires { 0 < left }
    ensures is { result ≡ new_left left flag }
    ensures less { result < left }
{
    if left == 2 {
        if flag {
            return 1;
        }
        return 0;
    }
    left - 1
}
