//! The laws of this crate, for the crates above: which node an address, a domain and a frame has,
//! which overlap is reported, and which nodes have memory.

ghost use Rattle.std.specs.Prelude.{◌≡◌, ◌≢◌, ◌↔◌, ◌⊎◌, ℕ, ◌^◌, ◌<◌, ◌≤◌, ◌++◌, ◌||◌, Bool, true, false, None, Some, is_some, Option, List, [], ◌∷◌, length, get_or};
ghost use Rattle.std.specs.List.{All};
ghost use Rattle.address_runs.specs.Overlay.{HaveAddresses};
ghost use Rattle.address_runs.specs.Runs.{AreRuns, value_at};
ghost use Rattle.srat_reader.specs.declared.table.SratBlock.{SratBlock as AnyBlock};
ghost use Rattle.srat_reader.specs.Table.{SratView};
ghost use Rattle.srat_nodes.specs.declared.kept.KeptBlock.{KeptBlock as AnyKept};
ghost use Rattle.srat_nodes.specs.declared.reasons.Why.TheVariants as why;
ghost use Rattle.bm_base.specs.declared.zone.TheConstants.{MAX_NODES};
ghost use Rattle.srat_nodes.specs.Domains.{is_named_domain, domains_once, node_of_domain};
ghost use Rattle.srat_nodes.specs.NodeAt.{NumaBlock, belongs_to_node};
ghost use Rattle.srat_nodes.specs.SratNodesView.{judge_srat, fallback_node, nodes_by_blocks};
ghost use Rattle.srat_nodes.specs.Kept.{numa_blocks_of, numbers_overlap, first_overlap, frame_base, is_node_of, keep_blocks};

/// Law: an address belongs to at most one node, the one that `nodes_by_blocks` gives it, if no kept
/// block is empty and no two kept blocks of different nodes share an address.
pub fn address_has_one_node()
    ensures { (kept : List AnyKept) → first_overlap kept ≡ None
        → HaveAddresses (numa_blocks_of kept)
        →
        (x n : ℕ) → (belongs_to_node (numa_blocks_of kept) n x ≡ true)
        ↔ (nodes_by_blocks kept x ≡ Some n) }
{}

/// Law: different domains in the list have different nodes. The node of a domain in the list is
/// below the length of the list.
pub fn one_node_a_domain()
    ensures one { (domains : List ℕ) (d e : ℕ) → is_named_domain domains d ≡ true
        → is_named_domain domains e ≡ true →
        node_of_domain domains d ≡ node_of_domain domains e → d ≡ e }
    ensures below { (domains : List ℕ) (d : ℕ) → is_named_domain domains d ≡ true
        → node_of_domain domains d < length domains }
{}

/// Law: nodes number the domains in the order in which they are first named. `domains_once` of a
/// list of names has exactly the domains that are named, each once. The domain at its index n has
/// node n. Of two domains, the one that is first named earlier has the lower node.
pub fn nodes_by_first_naming()
    ensures named { (names : List ℕ) (d : ℕ) →
        is_named_domain (domains_once names) d ≡ is_named_domain names d }
    ensures place { (names : List ℕ) (n : ℕ) → n < length (domains_once names) →
        node_of_domain (domains_once names) (get_or (domains_once names) n 0) ≡ n }
    ensures order { (before after : List ℕ) (d e : ℕ) → is_named_domain before e ≡ false → d ≢ e
        → is_named_domain after e ≡ true →
        node_of_domain (domains_once (before ++ d ∷ after)) d
        < node_of_domain (domains_once (before ++ d ∷ after)) e }
{}

/// Law: the reported pair of kept blocks shares an address and has different nodes. It is the least
/// such pair, by its first number and then by its second. If no pair is reported, there is no such
/// pair.
pub fn least_overlap()
    ensures pair { (memory : ℕ → Bool) (domains : List ℕ) (blocks : List AnyBlock) (i j : ℕ) →
        first_overlap (keep_blocks memory domains blocks) ≡ Some (i, j)
        → numbers_overlap (keep_blocks memory domains blocks) i j ≡ true }
    ensures least { (memory : ℕ → Bool) (domains : List ℕ) (blocks : List AnyBlock) (i j k l : ℕ) →
        first_overlap (keep_blocks memory domains blocks) ≡ Some (i, j)
        → numbers_overlap (keep_blocks memory domains blocks) k l ≡ true →
        (i < k) ⊎ ((i ≡ k) × (j ≤ l)) }
    ensures none { (memory : ℕ → Bool) (domains : List ℕ) (blocks : List AnyBlock) (k l : ℕ) →
        first_overlap (keep_blocks memory domains blocks) ≡ None
        → numbers_overlap (keep_blocks memory domains blocks) k l ≡ false }
{}

/// Law: an address has the same node as the first address of its frame. If memory consists of whole
/// frames, this also holds for memory to which the blocks give no node. So the first addresses of
/// frames are enough to count the frames without a node.
pub fn frame_has_one_node()
    ensures node { (memory : ℕ → Bool) (domains : List ℕ) (blocks : List AnyBlock) (x : ℕ) →
        nodes_by_blocks (keep_blocks memory domains blocks) x
        ≡ nodes_by_blocks (keep_blocks memory domains blocks) (frame_base x) }
    ensures left { (memory : ℕ → Bool) → ((x : ℕ) → memory x ≡ memory (frame_base x)) →
        (domains : List ℕ) (blocks : List AnyBlock) (x : ℕ) →
        fallback_node memory (keep_blocks memory domains blocks) x
        ≡ fallback_node memory (keep_blocks memory domains blocks) (frame_base x) }
{}

/// Law: if no two kept blocks of different nodes overlap, each node of a kept block has at least
/// one byte of memory. If any block is kept, every node that an address gets is the node of a kept
/// block, also that of memory to which the blocks give no node.
pub fn kept_nodes_have_memory()
    ensures memory { (memory : ℕ → Bool) (domains : List ℕ) (blocks : List AnyBlock) →
        first_overlap (keep_blocks memory domains blocks) ≡ None →
        (n : ℕ) → is_node_of (keep_blocks memory domains blocks) n ≡ true →
        (x : ℕ) × (memory x ≡ true)
        × (nodes_by_blocks (keep_blocks memory domains blocks) x ≡ Some n) }
    ensures block { (memory : ℕ → Bool) (kept : List AnyKept) → kept ≢ [] →
        (x n : ℕ) → (nodes_by_blocks kept x ≡ Some n) ⊎ (fallback_node memory kept x ≡ Some n)
        → is_node_of kept n ≡ true }
{}

/// Law: the lists `joined` and `rest` of `judge_srat` are lists of runs: they ascend without
/// overlaps, and runs that touch have different nodes. Each run has a node below
/// [`bm_base::MAX_NODES`]. If the table is used, each byte of memory lies in a run of one of the
/// lists. If memory consists of whole frames, all addresses of a frame have the same node in each
/// list.
pub fn runs_cover_memory()
    ensures runs { (memory : ℕ → Bool) (off : Bool) (table : Option SratView) →
        AreRuns (judge_srat memory off table).joined × AreRuns (judge_srat memory off table).rest }
    ensures nodes { (memory : ℕ → Bool) (off : Bool) (table : Option SratView) →
        All (λ (b : NumaBlock). (0 < b.size) × (b.value < MAX_NODES))
        ((judge_srat memory off table).joined ++ (judge_srat memory off table).rest) }
    ensures cover { (memory : ℕ → Bool) (off : Bool) (table : Option SratView) (x : ℕ)
        → (judge_srat memory off table).why ≡ why.Used →
        memory x ≡ true → x < 2 ^ 64 →
        (is_some (value_at (judge_srat memory off table).joined x)
        || is_some (value_at (judge_srat memory off table).rest x)) ≡ true }
    ensures frames { (memory : ℕ → Bool) (off : Bool) (table : Option SratView)
        → ((x : ℕ) → memory x ≡ memory (frame_base x)) →
        (x : ℕ) → x < 2 ^ 64 →
        (value_at (judge_srat memory off table).joined x
        ≡ value_at (judge_srat memory off table).joined (frame_base x)) ×
        (value_at (judge_srat memory off table).rest x
        ≡ value_at (judge_srat memory off table).rest (frame_base x)) }
{}
