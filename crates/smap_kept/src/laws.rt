//! Laws over the definitions, for all runs of calls: a call does nothing, and its contract is the law.
ghost use Rattle.std.specs.Prelude.{◌≡◌, ◌⊎◌, ◌∷◌, ℕ, List, true, false};
ghost use Rattle.std.specs.Str.{bytes_eq};
ghost use Rattle.smap_locations.specs.Paths.{without_query};
ghost use Rattle.smap_kept.specs.Kept.{KeptSeen, answer, asked_for, forgotten, still_holds};
ghost use Rattle.smap_kept.specs.OwnUrls.{key_of};
ghost use Rattle.smap_kept.specs.Runs.{Call, Forget, Put, PutNone, answer_said, kept_after};
ghost use Rattle.smap_kept.specs.declared.answer.KeptAnswer.TheVariants.{Known, NoneKnown, Wanted};
ghost use Rattle.smap_kept.specs.declared.bounded.Counted.{Counted};
ghost use Rattle.smap_kept.specs.declared.kept.Absence.{Absence};

/// Within any bound, the answer for a URL is that of what was put, as if all of it were at hand, or it is wanted. So nothing
/// is answered, that there is none included, that was not put.
pub fn answers_are_as_if_all_were_kept<T>()
    ensures { (most now : ℕ) (calls : List (Call T)) (url : List ℕ) →
        (answer now (kept_after most calls) url ≡ answer_said now calls url)
        ⊎ (answer now (kept_after most calls) url ≡ Wanted) }
{}

/// What was put last under a URL is its answer.
pub fn what_was_put_last_answers<T>()
    ensures value { (most now : ℕ) (calls : List (Call T)) (url : List ℕ) (one : Counted T) →
        answer now (kept_after most (Put url one ∷ calls)) url ≡ Known one.value }
    ensures none { (most now : ℕ) (calls : List (Call T)) (url : List ℕ) (none : Absence) →
        still_holds now none.until ≡ true →
        answer now (kept_after most (PutNone url none ∷ calls)) url ≡ NoneKnown none.why }
{}

/// What is put under the key of a URL is its answer: so nothing is wanted again that was put as it was wanted.
pub fn what_is_put_under_its_key_answers<T>()
    ensures value { (most now : ℕ) (calls : List (Call T)) (url : List ℕ) (one : Counted T) →
        let key = key_of (kept_after most calls).own url in
        answer now (kept_after most (Put key one ∷ calls)) url ≡ Known one.value }
    ensures none { (most now : ℕ) (calls : List (Call T)) (url : List ℕ) (none : Absence) →
        let key = key_of (kept_after most calls).own url in
        still_holds now none.until ≡ true →
        answer now (kept_after most (PutNone key none ∷ calls)) url ≡ NoneKnown none.why }
{}

/// A look-up changes the answer of no URL.
pub fn looking_up_changes_no_answer<T>()
    ensures { (now then : ℕ) (kept : KeptSeen T) (url other : List ℕ) →
        answer now (asked_for then kept other) url ≡ answer now kept url }
{}

/// What is put under a URL changes no answer but those for that URL, and for what is that URL without its query and its
/// fragment; for others it is at most wanted then, what they had having been dropped.
pub fn putting_changes_its_own_answers<T>()
    ensures value { (most now : ℕ) (calls : List (Call T)) (url there : List ℕ) (one : Counted T) →
        bytes_eq url there ≡ false → bytes_eq (without_query url) there ≡ false →
        let after = answer now (kept_after most (Put there one ∷ calls)) url in
        (after ≡ answer now (kept_after most calls) url) ⊎ (after ≡ Wanted) }
    ensures none { (most now : ℕ) (calls : List (Call T)) (url there : List ℕ) (none : Absence) →
        bytes_eq url there ≡ false → bytes_eq (without_query url) there ≡ false →
        let after = answer now (kept_after most (PutNone there none ∷ calls)) url in
        (after ≡ answer now (kept_after most calls) url) ⊎ (after ≡ Wanted) }
{}

/// What is forgotten under a URL is wanted for each URL that it answered for, and no other answer changes.
pub fn forgetting_changes_its_own_answers<T>()
    ensures own { (most now : ℕ) (calls : List (Call T)) (url there : List ℕ) →
        bytes_eq (key_of (kept_after most calls).own url) there ≡ true →
        answer now (kept_after most (Forget there ∷ calls)) url ≡ Wanted }
    ensures others { (now : ℕ) (kept : KeptSeen T) (url there : List ℕ) →
        bytes_eq (key_of kept.own url) there ≡ false →
        answer now (forgotten there kept) url ≡ answer now kept url }
{}
