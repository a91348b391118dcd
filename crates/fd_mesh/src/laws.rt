ghost use Rattle.std.specs.Prelude.{◌≡◌, [], ◌∷◌};
ghost use Rattle.fd_mesh.specs.Source.{mesh_lines};
ghost use Rattle.fd_mesh.specs.Mesh.{map_of, ends_of};
ghost use Rattle.fd_mesh.specs.MeshLaws.{sweep_for};

/// A mesh's source is the sweep over a cube with a few lines changed and five more; and the smallest
/// mesh, worked out.
pub fn mesh_laws(size: u64)
    ensures source { mesh_lines size ≡ sweep_for size }
    ensures map { map_of 0 8 ≡ 7 ∷ 14 ∷ 21 ∷ 28 ∷ 35 ∷ 42 ∷ 49 ∷ 56 ∷ [] }
    ensures ends { ends_of 0 8 ≡ 2 ∷ 3 ∷ 4 ∷ 5 ∷ 6 ∷ 7 ∷ 8 ∷ 1 ∷ 2 ∷ 5 ∷ 2 ∷ 1 ∷ 2 ∷ 5 ∷ 2 ∷ 1 ∷ [] }
{}
