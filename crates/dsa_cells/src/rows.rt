//! A worked array, by computation.

ghost use Rattle.std.specs.Prelude.{◌≡◌, ℕ, ◌≢◌, [], ◌∷◌, List, None, Some, false, map, replicate, take};
ghost use Rattle.dsa_cells.specs.Array.{header_at, no_entry, no_header, no_node, node_at};
ghost use Rattle.dsa_cells.specs.Content.{IsUnused, IsUsed};
ghost use Rattle.dsa_cells.specs.Fresh.{AreFresh, fresh_header, fresh_node};
ghost use Rattle.dsa_cells.specs.Invariant.{place_by_owner, IsWholeArray};
ghost use Rattle.dsa_cells.specs.Partition.{lists_of, lists_in_use, places, IsHeader, IsPartition};
ghost use Rattle.dsa_cells.specs.Rows.{three_cells, three_headers, unmended_cells, node, from_to};
ghost use Rattle.dsa_cells.specs.Writes.{AreInside, InRange, after_join, after_detach, after_append, after_mark, after_splice, after_transfer, as_last, cells_without, header_after_join, header_without, with_last};

/// Three cells, of which one is free.
pub fn three_cells_in_lists()
    ensures lists { lists_of three_cells three_headers ≡ (2 ∷ 0 ∷ []) ∷ [] ∷ (1 ∷ []) ∷ [] }
    ensures in_use { lists_in_use (lists_of three_cells three_headers) ≡ (2 ∷ 0 ∷ []) ∷ [] ∷ [] }
    ensures first { IsHeader three_cells (header_at three_headers 0) (2 ∷ 0 ∷ []) }
    ensures empty { IsHeader three_cells (header_at three_headers 1) [] }
    ensures free { IsHeader three_cells (header_at three_headers 2) (1 ∷ []) }
    ensures once { places (lists_of three_cells three_headers) 0 ≡ 1 }
    ensures past { places (lists_of three_cells three_headers) 3 ≡ 0 }
{}

/// What is no partition: a cell in two lists, or twice in one.
pub fn a_cell_twice()
    ensures apart { places ((2 ∷ 0 ∷ []) ∷ (0 ∷ []) ∷ []) 0 ≡ 2 }
    ensures together { places ((0 ∷ 2 ∷ 0 ∷ []) ∷ []) 0 ≡ 2 }
{}

/// What is no list: the last cell has no previous, or the header has another tail or count.
pub fn links_that_disagree()
    ensures previous { IsHeader unmended_cells (header_at three_headers 0) (2 ∷ 0 ∷ []) → ⊥ }
    ensures order { IsHeader three_cells (header_at three_headers 0) (0 ∷ 2 ∷ []) → ⊥ }
    ensures short { IsHeader three_cells (header_at three_headers 0) (2 ∷ []) → ⊥ }
{}

/// What a cell holds before its first use, what is past the end, and the cells of a new array.
pub fn first_cells()
    ensures entry { no_entry
        ≡ record {
          name = 0;
          parent = None;
          desc = record { pasid = 0; flags = 0; op = 0; size = 0 };
          queue = 0;
          running = false;
        } }
    ensures past { node_at three_cells 3 ≡ node None None 0 }
    ensures nodes { map (fresh_node 3 7) (0 ∷ 1 ∷ 2 ∷ [])
        ≡ node None (Some 1) 7 ∷ node (Some 0) (Some 2) 7 ∷ node (Some 1) None 7 ∷ [] }
    ensures only { fresh_node 1 7 0 ≡ node None None 7 }
    ensures headers { map fresh_header (0 ∷ 1 ∷ 3 ∷ [])
        ≡ no_header ∷ from_to 0 0 1 ∷ from_to 0 2 3 ∷ [] }
    ensures owners { map (place_by_owner (5 ∷ 6 ∷ []) 6) (0 ∷ 1 ∷ 2 ∷ []) ≡ 0 ∷ 1 ∷ 0 ∷ [] }
    ensures owner_of_none { place_by_owner (5 ∷ 6 ∷ []) 0 2 ≡ 0 }
{}

/// What a header becomes when another list comes to its end, and when a cell leaves or comes.
pub fn headers_after_steps()
    ensures both { header_after_join (from_to 1 2 3) (from_to 4 5 6) ≡ from_to 1 5 9 }
    ensures none_kept { header_after_join no_header (from_to 4 5 6) ≡ from_to 4 5 6 }
    ensures none_given { header_after_join (from_to 1 2 3) no_header ≡ from_to 1 2 3 }
    ensures front_leaves { header_without (from_to 1 2 3) (node None (Some 8) 0) ≡ from_to 8 2 2 }
    ensures last_leaves { header_without (from_to 1 2 3) (node (Some 9) None 0) ≡ from_to 1 9 2 }
    ensures middle_leaves { header_without (from_to 1 2 3) (node (Some 9) (Some 8) 0)
        ≡ from_to 1 2 2 }
    ensures only_leaves { header_without (from_to 1 1 1) (node None None 0) ≡ no_header }
    ensures comes { with_last (from_to 1 2 3) 9 ≡ from_to 1 9 4 }
    ensures first_comes { with_last no_header 9 ≡ from_to 9 9 1 }
{}

/// What the array and the lists become.
pub fn arrays_after_steps()
    ensures joined { after_join three_cells (Some 0) (Some 1)
        ≡ node (Some 2) (Some 1) 0 ∷ node (Some 0) None 2 ∷ node None (Some 0) 0 ∷ [] }
    ensures detached { after_detach three_cells 2
        ≡ node None None 0 ∷ node None None 2 ∷ node None (Some 0) 0 ∷ [] }
    ensures end_detached { after_detach three_cells 0
        ≡ node (Some 2) None 0 ∷ node None None 2 ∷ node None None 0 ∷ [] }
    ensures last { as_last three_cells 2 5
        ≡ node (Some 2) None 0 ∷ node None None 2 ∷ node None None 5 ∷ [] }
    ensures marked { after_mark three_cells (2 ∷ 1 ∷ []) 5
        ≡ node (Some 2) None 0 ∷ node None None 5 ∷ node None (Some 0) 5 ∷ [] }
    ensures without { cells_without 2 (1 ∷ 2 ∷ 3 ∷ []) ≡ 1 ∷ 3 ∷ [] }
    ensures appended { after_append ((1 ∷ []) ∷ (2 ∷ []) ∷ []) 1 (3 ∷ 4 ∷ [])
        ≡ (1 ∷ []) ∷ (2 ∷ 3 ∷ 4 ∷ []) ∷ [] }
    ensures transferred { after_transfer ((1 ∷ 5 ∷ []) ∷ (2 ∷ []) ∷ []) 1 0 1
        ≡ (5 ∷ []) ∷ (2 ∷ 1 ∷ []) ∷ [] }
    ensures spliced { after_splice ((1 ∷ 5 ∷ []) ∷ (2 ∷ []) ∷ []) 0 1 ≡ [] ∷ (2 ∷ 1 ∷ 5 ∷ []) ∷ [] }
{}

/// Cells of an array, and arrays whose cells are those of a new one.
pub fn cells_of_arrays()
    ensures none { InRange three_cells None }
    ensures last { InRange three_cells (Some 2) }
    ensures no_fourth { ¬ InRange three_cells (Some 3) }
    ensures fresh { AreFresh (node None None 7 ∷ []) 1 7 1 }
    ensures first_of_two { AreFresh (node None (Some 1) 7 ∷ []) 2 7 1 }
    ensures too_few { ¬ AreFresh (node None None 7 ∷ []) 1 7 2 }
    ensures too_many { ¬ AreFresh (node None None 7 ∷ []) 1 7 0 }
    ensures another_list { ¬ AreFresh (node None None 6 ∷ []) 1 7 1 }
    ensures partition { IsPartition 1 ((0 ∷ []) ∷ []) }
    ensures missing { ¬ IsPartition 2 ((0 ∷ []) ∷ []) }
    ensures past { ¬ IsPartition 1 ((0 ∷ 1 ∷ []) ∷ []) }
    ensures twice { ¬ IsPartition 1 ((0 ∷ []) ∷ (0 ∷ []) ∷ []) }
{}

/// What callers may know of a cell that a list has, and of a free one; and arrays that are not
/// whole.
pub fn cells_in_use()
    ensures used { IsUsed three_cells three_headers (record { 0 = 2 }) (node None (Some 0) 0) }
    ensures last { IsUsed three_cells three_headers (record { 0 = 0 }) (node (Some 2) None 0) }
    ensures beyond { ¬ IsUsed three_cells three_headers (record { 0 = 3 }) no_node }
    ensures other_node { ¬ IsUsed three_cells three_headers (record { 0 = 2 }) (node None None 0) }
    ensures free { ¬ IsUsed three_cells three_headers (record { 0 = 1 }) (node None None 2) }
    ensures unused { IsUnused three_cells three_headers (record { 0 = 1 }) }
    ensures not_unused { ¬ IsUnused three_cells three_headers (record { 0 = 2 }) }
    ensures inside { AreInside three_cells [] }
    ensures one_beyond { ¬ AreInside three_cells (3 ∷ []) }
    ensures no_free_list { ¬ IsWholeArray [] [] }
    ensures cell_lost { ¬ IsWholeArray three_cells (take 2 three_headers) }
    ensures other_owner { ¬ IsWholeArray
        (node (Some 2) None 0 ∷ node None None 0 ∷ node None (Some 0) 0 ∷ [])
        three_headers }
{}
