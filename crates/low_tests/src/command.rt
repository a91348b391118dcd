use fd_command::{Iterations, Manner, Origin, Refused, Request, Turns, requested};
use std::alloc::{AllocError, Global};
use std::process::Abort;
use std::test::Fail;

fn words_of(alloc: Global, texts: &[&str]) -> Result<Vec<String>, AllocError> {
    let mut words = Vec::new(alloc);
    for text in texts {
        words.push(String::from_str(alloc, text)?)?;
    }
    Ok(words)
}

fn asks(
    rt: &impl Abort,
    alloc: Global,
    texts: &[&str],
    want: Result<Request<'_>, Refused>,
) -> Result<(), Fail> {
    let words = words_of(alloc, texts)?;
    assert_eq!(rt; requested(alloc, words.as_slice()), want);
    Ok(())
}

/// How a program runs where no option stands.
fn usual() -> Manner {
    Manner {
        nodes: 4,
        turns: Turns::RoundRobin,
        iterations: Iterations::Owner,
        report: false,
        plain: false,
    }
}

fn file<'a>(manner: Manner) -> Result<Request<'a>, Refused> {
    Ok(Request {
        origin: Origin::File("b.fd"),
        manner,
    })
}

fn nodes<'a>(nodes: u32, plain: bool) -> Result<Request<'a>, Refused> {
    file(Manner {
        nodes,
        plain,
        ..usual()
    })
}

fn mesh<'a>(seed: u32, size: u32) -> Result<Request<'a>, Refused> {
    Ok(Request {
        origin: Origin::Mesh { seed, size },
        manner: usual(),
    })
}

fn seeded<'a>(seed: u32) -> Result<Request<'a>, Refused> {
    file(Manner {
        turns: Turns::Seeded(seed),
        ..usual()
    })
}

fn reported<'a>(iterations: Iterations) -> Result<Request<'a>, Refused> {
    file(Manner {
        iterations,
        report: true,
        ..usual()
    })
}

#[test]
fn words_on_memory(rt: HostRuntime) -> Result<(), Fail> {
    let alloc = rt.alloc();
    let not_taken = Err(Refused::NotTaken);
    asks(&rt, alloc, &["b.fd"], nodes(4, false))?;
    asks(&rt, alloc, &["--nodes", "2", "b.fd"], nodes(2, false))?;
    asks(
        &rt,
        alloc,
        &["b.fd", "--nodes=16", "--plain"],
        nodes(16, true),
    )?;
    asks(
        &rt,
        alloc,
        &["--mesh", "4294967295", "--size=100000"],
        mesh(u32::MAX, 100_000),
    )?;
    asks(&rt, alloc, &["b.fd", "--nodes", "17"], not_taken)?;
    asks(&rt, alloc, &["--", "b.fd"], not_taken)?;
    asks(&rt, alloc, &["--turns", "3", "b.fd"], seeded(3))?;
    asks(&rt, alloc, &["b.fd", "--plain", "--turns=0"], not_taken)?;
    asks(
        &rt,
        alloc,
        &["b.fd", "--mesh", "0", "--size", "8"],
        not_taken,
    )?;
    asks(
        &rt,
        alloc,
        &["--report", "b.fd", "--iterations", "most"],
        reported(Iterations::Most),
    )?;
    asks(
        &rt,
        alloc,
        &["b.fd", "--iterations=owner", "--report"],
        reported(Iterations::Owner),
    )?;
    asks(&rt, alloc, &["b.fd", "--iterations", "Most"], not_taken)?;
    asks(&rt, alloc, &["b.fd", "--plain", "--report"], not_taken)?;
    asks(&rt, alloc, &["b.fd", "--report", "--report"], not_taken)
}
