//! Laws of caches.
ghost use Rattle.std.specs.Prelude.{◌≡◌, ℕ, List, [], ◌++◌, map, length};
ghost use Rattle.fab_protocol.specs.Caches.{last_distinct, cached};
ghost use Rattle.fab_protocol.specs.Versions.{Rows};
ghost use Rattle.fab_cache.specs.Caching.{AreFew, AreLast, AreOnce, laid, renewed};

/// Puts in two parts leave what they leave in a row.
pub fn puts_in_a_row()
    ensures { (k : ℕ) (xs ys : Rows) → last_distinct k (last_distinct k xs ++ ys) ≡ last_distinct k (xs ++ ys) }
{}

/// What is built anew, laid over the old caches, is what puts make of them.
pub fn renewed_caches_are_cached()
    ensures { (k : ℕ) (puts : Rows) (s : ℕ) (caches : List Rows) → AreLast k caches
        → laid (renewed k puts s caches) caches ≡ cached k puts s caches }
{}

/// Behind puts each cache is its own last k distinct, has at most k rows, and each name once. An empty
/// cache is its own last ones, too. Puts leave as many caches as there were.
pub fn caches_stay_distinct()
    ensures own { (k : ℕ) (puts : Rows) (s : ℕ) (caches : List Rows) → AreLast k (cached k puts s caches) }
    ensures few { (k : ℕ) (puts : Rows) (s : ℕ) (caches : List Rows) → AreFew k (cached k puts s caches) }
    ensures once { (k : ℕ) (puts : Rows) (s : ℕ) (caches : List Rows) → AreOnce (cached k puts s caches) }
    ensures empty { (k : ℕ) (stores : List ℕ) → AreLast k (map (λ s. []) stores) }
    ensures cleared { (k : ℕ) (caches : List Rows) → AreLast k (map (λ cache. []) caches) }
    ensures as_many { (k : ℕ) (puts : Rows) (s : ℕ) (caches : List Rows)
        → length (cached k puts s caches) ≡ length caches }
{}
