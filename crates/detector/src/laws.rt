//! Laws of the definitions. The functions do nothing: what they ensure holds of any history.

ghost use Rattle.std.specs.Prelude.{◌≡◌, ℕ, List, All, Contains, take};
ghost use Rattle.ff_ids.specs.Views.{State};
ghost use Rattle.detector.specs.declared.watch.Watched.{Watched};
ghost use Rattle.detector.specs.Silence.{Happening, live, pings_from, AreTo, with_nonce, with_nonces};
ghost use Rattle.detector.specs.Watching.{watched as watched_in};
ghost use Rattle.detector.specs.Laws.{IsLive, IsLiveSince, IsJudged, nonces};

/// The live pings are those sent at a tick where the member was watched with this epoch then and at each tick since.
/// Of the latest ones, which are kept, those are answered to which a pong with their nonce has come since.
pub fn live_and_answered()
    ensures live { (misses m epoch : ℕ) (happened : List Happening)
        → All (IsLive happened m epoch) (live misses happened m epoch) }
    ensures each { (misses m epoch nonce : ℕ) (happened since : List Happening)
        → IsLiveSince happened m epoch nonce since
        → Contains (nonces (live misses happened m epoch)) nonce }
    ensures answered { (misses m epoch : ℕ) (happened : List Happening)
        → All (IsJudged happened m epoch) (take misses (live misses happened m epoch)) }
{}

/// The pings of a tick, whatever their nonces, are given the next ones of a source one after the other. Then they are
/// the pings with these nonces; to whom they go stays the same at each.
pub fn learned_one_by_one()
    ensures all { (t k me : ℕ) (s : State) (source : ℕ → ℕ) (sent : List (ℕ × ℕ))
        → AreTo (watched_in t s me) sent
        → with_nonces (pings_from source k (watched_in t s me)) sent
        ≡ pings_from source k (watched_in t s me) }
    ensures to { (m nonce : ℕ) (watched : List Watched) (sent : List (ℕ × ℕ))
        → AreTo watched sent → AreTo watched (with_nonce m nonce sent) }
{}
