//! The programs that the tests run.

/// Adds into the elements that an index array names.
pub(crate) const ADDS: &str =
    "PROGRAM B\nINTEGER*8 X(4), Y(4), IA(4)\nREAD X, IA\nOUTPUT Y\nFORALL I = 1, 4\nREDUCE(ADD, Y(IA(I)), X(I))\nEND FORALL\nEND\n";

/// Its data.
pub(crate) const ADDED: &str = "x.csv 10/20/30/40, ia.csv 2/2/4/1";

/// Sweeps over the edges of a cube, ten times, under a map.
pub(crate) const SWEEP: &str =
    "PROGRAM SWEEP\nPARAMETER (NP = 8, NE = 12)\nINTEGER*8 X(NP), F(NP), M(NP), E1(NE), E2(NE)\nDECOMPOSITION P(NP), E(NE)\nALIGN X(I), F(I) WITH P(I)\nALIGN E1(I), E2(I) WITH E(I)\nREAD X, M, E1, E2\nOUTPUT X\nDISTRIBUTE P(M)\nDO K = 1, 10\nFORALL I = 1, NE\nREDUCE(ADD, F(E1(I)), X(E2(I)) - X(E1(I)))\nREDUCE(ADD, F(E2(I)), X(E1(I)) - X(E2(I)))\nEND FORALL\nFORALL I = 1, NP\nX(I) = X(I) + F(I)\nF(I) = 0\nEND FORALL\nEND DO\nEND\n";

/// Its data: eight points and the twelve edges between them.
pub(crate) const CUBE: &str =
    "x.csv 8/0/0/0/0/0/0/0, m.csv 0/1/2/3/3/2/1/0, e1.csv 1/3/5/7/1/2/5/6/1/2/3/4, e2.csv 2/4/6/8/3/4/7/8/5/6/7/8";

/// Its text.
pub(crate) const SWEPT: &str =
    "X = 9942776 -9824672 -9824672 9706576 -9824672 9706576 9706576 -9588480\n";
