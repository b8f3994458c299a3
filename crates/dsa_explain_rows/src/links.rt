//! Arrays of linked cells, clause by clause: what is true of one, and what breaks each clause.

ghost use Rattle.std.specs.Prelude.{◌≡◌, [], ◌∷◌, List, Some, None, length};
ghost use Rattle.dsa_cells.specs.declared.links.{Node.{Node}, Header.{Header}};
ghost use Rattle.dsa_cells.specs.Array.{no_header, no_node};
ghost use Rattle.dsa_cells.specs.Content.{IsUsed};
ghost use Rattle.dsa_cells.specs.Invariant.{IsStore, IsWholeArray};
ghost use Rattle.dsa_cells.specs.Partition.{lists_of, AreHeaders, IsHeader};
ghost use Rattle.dsa_cells.specs.Rows.{three_cells, three_headers, node, from_to};
ghost use Rattle.dsa_cells.specs.Writes.{AreInside};

/// An array is whole with a free list, and with at most so many cells and lists.
pub fn whole_arrays()
    ensures three { IsWholeArray three_cells three_headers }
    ensures no_cells { IsWholeArray [] (no_header ∷ []) }
    ensures largest { (nodes : List Node) (headers : List Header)
        → length nodes ≡ 4294967295
        → length headers ≡ 65536
        → IsStore nodes headers (lists_of nodes headers)
        → IsWholeArray nodes headers }
    ensures too_many_cells { (nodes : List Node) (headers : List Header)
        → length nodes ≡ 4294967296
        → ¬ IsWholeArray nodes headers }
    ensures too_many_lists { (nodes : List Node) (headers : List Header)
        → length headers ≡ 65537
        → ¬ IsWholeArray nodes headers }
{}

/// A header says where its list begins and ends, and how long it is. There are as many as lists,
/// in their order.
pub fn headers_of_other_lists()
    ensures head { ¬ IsHeader three_cells (from_to 0 0 2) (2 ∷ 0 ∷ []) }
    ensures tail { ¬ IsHeader three_cells (from_to 2 2 2) (2 ∷ 0 ∷ []) }
    ensures count { ¬ IsHeader three_cells (from_to 2 0 3) (2 ∷ 0 ∷ []) }
    ensures next { ¬ IsHeader
        (node (Some 2) None 0 ∷ node None None 2 ∷ node None None 0 ∷ []) (from_to 2 0 2)
        (2 ∷ 0 ∷ []) }
    ensures one_list_more { ¬ AreHeaders three_cells three_headers
        ((2 ∷ 0 ∷ []) ∷ [] ∷ (1 ∷ []) ∷ [] ∷ []) }
    ensures another_order { ¬ AreHeaders three_cells three_headers
        ([] ∷ (2 ∷ 0 ∷ []) ∷ (1 ∷ []) ∷ []) }
{}

/// A cell in use is one of the array, has that node, and is in the list that the node names, before
/// the cell that follows there.
pub fn nodes_in_use()
    ensures in_the_last_list { IsUsed three_cells (from_to 2 0 2 ∷ from_to 1 1 1 ∷ [])
        (record { 0 = 2 }) (node None (Some 0) 0) }
    ensures past { ¬ IsUsed three_cells (from_to 3 3 1 ∷ no_header ∷ []) (record { 0 = 3 })
        no_node }
    ensures another_node { ¬ IsUsed three_cells three_headers (record { 0 = 2 })
        (node (Some 9) (Some 0) 0) }
    ensures another_list { ¬ IsUsed
        (node (Some 2) None 0 ∷ node None None 2 ∷ node None (Some 0) 1 ∷ []) three_headers
        (record { 0 = 2 }) (node None (Some 0) 1) }
    ensures end_of_its_list { ¬ IsUsed three_cells
        (from_to 2 2 1 ∷ no_header ∷ from_to 1 1 1 ∷ []) (record { 0 = 2 })
        (node None (Some 0) 0) }
    ensures inside { AreInside three_cells (2 ∷ 0 ∷ []) }
{}
