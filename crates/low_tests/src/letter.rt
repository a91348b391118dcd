use chaos_letter::*;
use fd_words::{Memory, Numbers};
use std::alloc::Global;
use std::test::Fail;

fn letter_of(alloc: Global, kind: Kind, execution: u64, numbers: &[i64]) -> Result<Letter, Memory> {
    let mut list = Numbers::new(alloc);
    list.append(numbers)?;
    Ok(Letter::new(kind, execution, 7, list))
}

#[test]
fn only_what_is_wanted_fits(rt: HostRuntime) -> Result<(), Fail> {
    let six = letter_of(rt.alloc(), Kind::Gather, 2, [1, 4, 40, 1, 5, 50].as_slice())?;
    let none = letter_of(rt.alloc(), Kind::Gather, 2, [].as_slice())?;
    let wanted = Wanted {
        kind: Kind::Gather,
        execution: 2,
        site: 7,
        group: 3,
        least: 6,
        most: 6,
    };
    let free = Wanted {
        least: 0,
        most: 1 << 32,
        ..wanted
    };
    let table = [
        (wanted, true, false),
        (free, true, true),
        (Wanted { group: 4, ..free }, false, true),
        (Wanted { group: 0, ..free }, false, true),
        (Wanted { most: 5, ..free }, false, true),
        (
            Wanted {
                kind: Kind::Scatter,
                ..free
            },
            false,
            false,
        ),
        (
            Wanted {
                execution: 1,
                ..free
            },
            false,
            false,
        ),
        (Wanted { site: 0, ..free }, false, false),
    ];
    for (wanted, of_six, of_none) in table {
        assert_eq!(rt; wanted.fits(&six), of_six);
        assert_eq!(rt; wanted.fits(&none), of_none);
    }
    Ok(())
}
