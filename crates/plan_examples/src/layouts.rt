//! Worked programs at a step: owners, local addresses and local parts.
ghost use Rattle.std.specs.Prelude.{◌≡◌, pos, [], ◌∷◌};
ghost use Rattle.fd_program.specs.Layouts.{owners_at};
ghost use Rattle.plan_examples.specs.Scenes.{mapped_scene, mapped_past, locals_of, aligned_scene, moved_past, parts_at};

/// Under the map -1 7 0 2 on four nodes elements 1 and 2 are on node 3, element 3 on node 0, element 4 on
/// node 2. The map array itself is in blocks.
pub fn mapped_places()
    ensures owners { owners_at mapped_scene mapped_past ≡ (3 ∷ 3 ∷ 0 ∷ 2 ∷ []) ∷ (0 ∷ 1 ∷ 2 ∷ 3 ∷ []) ∷ [] }
    ensures locals { locals_of mapped_scene mapped_past 0 ≡ 0 ∷ 1 ∷ 0 ∷ 0 ∷ [] }
{}

/// The local parts of an array with an offset, in blocks and then cyclic: places that it doesn't use are 0.
pub fn aligned_parts()
    ensures block { parts_at aligned_scene [] 0 ≡ (pos 0 ∷ pos 0 ∷ pos 7 ∷ []) ∷ [] }
    ensures next_block { parts_at aligned_scene [] 1 ≡ (pos 8 ∷ pos 9 ∷ []) ∷ [] }
    ensures cyclic { parts_at aligned_scene moved_past 0 ≡ (pos 0 ∷ pos 7 ∷ pos 9 ∷ []) ∷ [] }
    ensures next_cyclic { parts_at aligned_scene moved_past 1 ≡ (pos 0 ∷ pos 8 ∷ []) ∷ [] }
{}
