ghost use Rattle.std.specs.Prelude.{◌≡◌};
ghost use Rattle.fd_program.specs.Places.{decomposition_of};
ghost use Rattle.fd_program.specs.Stores.{array_at as array_of, is_within as is_within_of};

use crate::ArrayFacts;
use fd_words::Name;

/// The array with a number; one without elements where there is none.
pub fn array_at(arrays: &[ArrayFacts], array: u32) -> ArrayFacts
    ensures { result ≡ array_of arrays.now array }
{
    match arrays.get(array as usize) {
        Some(facts) => *facts,
        None => ArrayFacts {
            name: Name::new(),
            extent: 0,
            decomposition: 0,
            offset: 0,
        },
    }
}

/// The number of the decomposition in which an array stands.
pub fn decomposition(arrays: &[ArrayFacts], array: u32) -> u32
    ensures { result ≡ decomposition_of arrays.now array }
{
    match arrays.get(array as usize) {
        Some(facts) => facts.decomposition,
        None => 0,
    }
}

/// The number of an array's elements; 0 where there is no such array.
pub fn extent(arrays: &[ArrayFacts], array: u32) -> u64
    ensures { result ≡ (array_of arrays.now array).extent }
{
    match arrays.get(array as usize) {
        Some(facts) => facts.extent,
        None => 0,
    }
}

/// Whether the array has this element.
pub(crate) fn is_within(arrays: &[ArrayFacts], array: u32, subscript: i128) -> bool
    ensures { result ≡ is_within_of arrays.now array subscript }
{
    1 <= subscript && subscript <= i128::from(extent(arrays, array))
}
