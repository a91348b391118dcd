use chaos_conflict::*;
use fd_words::{NumberLists, Numbers};
use std::alloc::Global;
use std::test::Fail;

fn has_list(lists: &NumberLists, owner: u64, numbers: &[i64]) -> bool {
    lists
        .get(owner)
        .is_some_and(|list| list.as_slice() == numbers)
}

fn conflict(first: i64, second: i64, reference: u32, element: u64) -> Conflict {
    Conflict {
        first,
        second,
        reference,
        element,
    }
}

/// What is claimed of the elements of each of two nodes: ascending and each once, in whatever order it comes, and
/// nothing of a third node's.
#[test]
fn claims_by_owner(rt: HostRuntime) -> Result<(), Fail> {
    let rows: [(u32, u64, i64, u32); 7] = [
        (4, 4, 1, 1),
        (2, 2, 3, 0),
        (2, 1, 3, 0),
        (2, 1, -5, 0),
        (1, 9, 2, 0),
        (2, 2, 3, 0),
        (1, 1, 1, 2),
    ];
    let mut claims = Claims::new(rt.alloc());
    for (reference, element, iteration, owner) in rows {
        claims.push(Claim {
            reference,
            element,
            iteration,
            owner,
        })?;
    }
    let lists = claims_of(rt.alloc(), &claims, 2)?;
    assert_eq!(rt; lists.len(), 2);
    assert!(rt; has_list(&lists, 0, [1, 9, 2, 2, 1, -5, 2, 1, 3, 2, 2, 3].as_slice()));
    assert!(rt; has_list(&lists, 1, [4, 4, 1].as_slice()));
    Ok(())
}

/// The least of one's own rows and those of one other node.
fn least_of(alloc: Global, mine: &[i64], taken: &[i64]) -> Result<Option<Conflict>, Fail> {
    let mine = Numbers::from_vec(Vec::from_slice(alloc, mine)?);
    let mut lists = NumberLists::empty(alloc, 2)?;
    lists.put(1, Numbers::from_vec(Vec::from_slice(alloc, taken)?));
    let least = least_conflict(alloc, &mine, &lists)?;
    Ok(least)
}

/// Two loops of two claims over iterations 1 to 4: the conflict of the later reference is the least by its second
/// iteration, and of two of the same iterations that of the first reference.
#[test]
fn least_by_iterations(rt: HostRuntime) -> Result<(), Fail> {
    let alloc = rt.alloc();
    let mine = [2, 1, 1, 2, 1, 4, 2, 2, 2, 2, 3, 3];
    let taken = [5, 2, 4, 5, 3, 2, 5, 4, 1, 5, 4, 3];
    let least = least_of(alloc, mine.as_slice(), taken.as_slice())?;
    assert_eq!(rt; least, Some(conflict(1, 3, 5, 4)));

    let mine = [5, 1, 1, 5, 1, 2, 5, 2, 3, 5, 2, 4];
    let taken = [2, 1, 4, 2, 4, 1, 2, 4, 2, 2, 4, 3];
    let least = least_of(alloc, mine.as_slice(), taken.as_slice())?;
    assert_eq!(rt; least, Some(conflict(1, 2, 2, 4)));
    Ok(())
}

/// Iterations are signed, and rows needn't come in order; one row that comes twice is no conflict.
#[test]
fn least_of_rows_in_any_order(rt: HostRuntime) -> Result<(), Fail> {
    let alloc = rt.alloc();
    let mine = [2, 1, 0, 2, 4, -3];
    let taken = [2, 4, -1, 2, 1, -2];
    let least = least_of(alloc, mine.as_slice(), taken.as_slice())?;
    assert_eq!(rt; least, Some(conflict(-3, -1, 2, 4)));

    let rows = [2, 1, 3, 2, 2, 3, 4, 1, 5];
    let least = least_of(alloc, rows.as_slice(), rows.as_slice())?;
    assert_eq!(rt; least, None);
    Ok(())
}

/// Reference 0, element 0, numbers out of range and what is left over behind the last row are passed over.
#[test]
fn faulty_rows(rt: HostRuntime) -> Result<(), Fail> {
    let alloc = rt.alloc();
    let faulty = [
        0, 5, 1, 0, 5, 2, 3, 0, 1, 3, 0, 2, -1, 5, 1, -1, 5, 2, 3, -5, 1, 3, -5, 2, 4294967296, 5,
        1, 4294967296, 5, 2, 7, 5, 1, 7, 5,
    ];
    assert_eq!(rt;
        least_of(alloc, faulty.as_slice(), [7, 5].as_slice())?,
        None
    );
    let least = least_of(alloc, faulty.as_slice(), [7, 5, 2].as_slice())?;
    assert_eq!(rt; least, Some(conflict(1, 2, 7, 5)));
    Ok(())
}

/// The least of nodes' votes isn't the first; of equal iterations and references the lesser element's.
#[test]
fn least_of_votes(rt: HostRuntime) -> Result<(), Fail> {
    let votes = [
        None,
        Some(conflict(2, 3, 2, 3)),
        Some(conflict(1, 4, 5, 4)),
        None,
        Some(conflict(1, 4, 5, 6)),
    ];
    assert_eq!(rt; least_clash(votes.as_slice()), Some(conflict(1, 4, 5, 4)));
    let votes = [
        Some(conflict(1, 2, 3, 9)),
        Some(conflict(1, 2, 3, 4)),
        Some(conflict(1, 2, 2, 8)),
    ];
    assert_eq!(rt; least_clash(votes.as_slice()), Some(conflict(1, 2, 2, 8)));
    assert_eq!(rt; least_clash([None, None].as_slice()), None);
    Ok(())
}

/// Votes, and the numbers of their letters.
#[test]
fn clashes_in_letters(rt: HostRuntime) -> Result<(), Fail> {
    let rows: [(Conflict, [i64; 4]); 3] = [
        (conflict(1, 3, 5, 4), [1, 3, 5, 4]),
        (conflict(-4, -1, 1, 1 << 63), [-4, -1, 1, i64::MIN]),
        (
            conflict(i64::MIN, i64::MAX, u32::MAX, u64::MAX),
            [i64::MIN, i64::MAX, 4294967295, -1],
        ),
    ];
    for (vote, numbers) in rows {
        let told = clash_numbers(rt.alloc(), Some(vote))?;
        assert_eq!(rt; told.as_slice(), numbers.as_slice());
        assert_eq!(rt; clash_of(&told), Some(vote));
    }
    let none = clash_numbers(rt.alloc(), None)?;
    assert!(rt; none.is_empty());
    assert_eq!(rt; clash_of(&none), None);
    conflict_laws();
    Ok(())
}

#[test]
fn votes_of_other_lengths(rt: HostRuntime) -> Result<(), Fail> {
    let mut numbers = Numbers::new(rt.alloc());
    numbers.append([1, 2, -1].as_slice())?;
    assert_eq!(rt; clash_of(&numbers), None);
    numbers.push(3)?;
    assert_eq!(rt; clash_of(&numbers), Some(conflict(1, 2, u32::MAX, 3)));
    numbers.push(4)?;
    assert_eq!(rt; clash_of(&numbers), None);
    Ok(())
}
