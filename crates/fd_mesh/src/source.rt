ghost use Rattle.std.specs.Prelude.{◌≡◌, [], ◌∷◌, ◌++◌, ◌≤◌, decimal, IfOk, OnOk};
ghost use Rattle.fd_mesh.specs.Source.{joined, sizes, declarations, sweeps, reductions, source_of};

use fd_words::{Bytes, Memory};
use itoa::Buffer;
use std::alloc::Global;

/// The source for a mesh of `size` elements.
pub fn source_of(alloc: Global, size: u64) -> Result<Bytes, Memory>
    requires { size ≤ 100000 }
    ensures { IfOk result (λ text. text ≡ source_of size) }
{
    let mut text = Bytes::new(alloc);
    text.append(b"PROGRAM MESH\n")?;
    append_sizes(&mut text, size)?;
    append_declarations(&mut text)?;
    append_sweeps(&mut text)?;
    append_reductions(&mut text)?;
    Ok(text)
}

fn append_sizes(text: &mut Bytes, size: u64) -> Result<(), Memory>
    requires { size ≤ 100000 }
    ensures { OnOk result (text.new ≡ text.old ++ (sizes size ++ 10 ∷ [])) }
{
    text.append(b"PARAMETER (NP = ")?;
    append_number(text, size)?;
    text.append(b", NE = ")?;
    append_number(text, 2 * size)?;
    text.append(b")\n")
}

fn append_number(text: &mut Bytes, number: u64) -> Result<(), Memory>
    ensures { OnOk result (text.new ≡ text.old ++ decimal number) }
{
    let mut buffer = Buffer::new();
    text.append(buffer.format(number).as_bytes())
}

fn append_declarations(text: &mut Bytes) -> Result<(), Memory>
    ensures { OnOk result (text.new ≡ text.old ++ joined declarations) }
{
    text.append(
        b"INTEGER*8 X(NP), F(NP), M(NP), E1(NE), E2(NE), S(1), LO(1), HI(1)\n\
          DECOMPOSITION P(NP), E(NE)\n\
          ALIGN X(I), F(I) WITH P(I)\n\
          ALIGN E1(I), E2(I) WITH E(I)\n\
          READ X, M, E1, E2\n\
          OUTPUT S, LO, HI\n\
          DISTRIBUTE P(M)\n",
    )
}

fn append_sweeps(text: &mut Bytes) -> Result<(), Memory>
    ensures { OnOk result (text.new ≡ text.old ++ joined sweeps) }
{
    text.append(
        b"DO K = 1, 4\n\
          FORALL I = 1, NE\n\
          REDUCE(ADD, F(E1(I)), X(E2(I)) - X(E1(I)))\n\
          REDUCE(ADD, F(E2(I)), X(E1(I)) - X(E2(I)))\n\
          END FORALL\n\
          FORALL I = 1, NP\n\
          X(I) = X(I) + F(I)\n\
          F(I) = 0\n\
          END FORALL\n\
          END DO\n",
    )
}

fn append_reductions(text: &mut Bytes) -> Result<(), Memory>
    ensures { OnOk result (text.new ≡ text.old ++ joined reductions) }
{
    text.append(
        b"FORALL I = 1, NP\n\
          REDUCE(ADD, S(1), X(I))\n\
          REDUCE(MIN, LO(1), X(I))\n\
          REDUCE(MAX, HI(1), X(I))\n\
          END FORALL\n\
          END\n",
    )
}
