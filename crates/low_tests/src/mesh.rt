use fd_mesh::*;
use std::test::Fail;

#[test]
fn the_smallest(rt: HostRuntime) -> Result<(), Fail> {
    let made = mesh(rt.alloc(), 0, 8)?;
    let source = b"PROGRAM MESH
PARAMETER (NP = 8, NE = 16)
INTEGER*8 X(NP), F(NP), M(NP), E1(NE), E2(NE), S(1), LO(1), HI(1)
DECOMPOSITION P(NP), E(NE)
ALIGN X(I), F(I) WITH P(I)
ALIGN E1(I), E2(I) WITH E(I)
READ X, M, E1, E2
OUTPUT S, LO, HI
DISTRIBUTE P(M)
DO K = 1, 4
FORALL I = 1, NE
REDUCE(ADD, F(E1(I)), X(E2(I)) - X(E1(I)))
REDUCE(ADD, F(E2(I)), X(E1(I)) - X(E2(I)))
END FORALL
FORALL I = 1, NP
X(I) = X(I) + F(I)
F(I) = 0
END FORALL
END DO
FORALL I = 1, NP
REDUCE(ADD, S(1), X(I))
REDUCE(MIN, LO(1), X(I))
REDUCE(MAX, HI(1), X(I))
END FORALL
END
";
    assert_eq!(rt; made.source.as_slice(), source.as_slice());
    let want: [(&[u8], &[u8]); 4] = [
        (b"x.csv", b"1\n2\n3\n4\n5\n6\n7\n8\n"),
        (b"m.csv", b"7\n14\n21\n28\n35\n42\n49\n56\n"),
        (
            b"e1.csv",
            b"1\n2\n3\n4\n5\n6\n7\n8\n1\n2\n3\n4\n5\n6\n7\n8\n",
        ),
        (
            b"e2.csv",
            b"2\n3\n4\n5\n6\n7\n8\n1\n2\n5\n2\n1\n2\n5\n2\n1\n",
        ),
    ];
    assert_eq!(rt; made.files.len(), 4);
    for (file, (name, content)) in made.files.as_slice().iter().zip(want) {
        assert_eq!(rt; file.name.as_slice(), name);
        assert_eq!(rt; file.content.as_slice(), content);
    }
    Ok(())
}

#[test]
fn the_largest(rt: HostRuntime) -> Result<(), Fail> {
    let made = mesh(rt.alloc(), 4294967295, 100000)?;
    let want: [u64; 4] = [588895, 1100000, 1177790, 1177979];
    for (file, length) in made.files.as_slice().iter().zip(want) {
        assert_eq!(rt; file.content.len(), length);
    }
    Ok(())
}
