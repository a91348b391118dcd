use chaos_vote::*;
use fd_words::Offence;
use std::test::Fail;

/// Votes, and the numbers of their letters: a subscript in two halves.
#[test]
fn votes_in_letters(rt: HostRuntime) -> Result<(), Fail> {
    let rows: [(i64, u32, i128, [i64; 4]); 3] = [
        (4, 1, -1, [4, 1, -1, -1]),
        (1, 64, 18446744073709551615, [1, 64, 0, -1]),
        (
            i64::MIN,
            u32::MAX,
            i128::MIN,
            [i64::MIN, 4294967295, i64::MIN, 0],
        ),
    ];
    for (iteration, reference, subscript, numbers) in rows {
        let offence = Offence {
            iteration,
            reference,
            subscript,
        };
        let told = numbers_of(rt.alloc(), Some(offence))?;
        assert_eq!(rt; told.as_slice(), numbers.as_slice());
        assert_eq!(rt; offence_of(&told), Some(offence));
    }
    vote_laws();
    Ok(())
}
