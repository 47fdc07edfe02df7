//! The laws of the nearest key before a member, and after it. The functions do nothing: what they ensure
//! holds of any list of keys.

ghost use Rattle.std.specs.Prelude.{◌≡◌, ◌↔◌, ℕ, List, All, Contains};
ghost use Rattle.ff_ids.specs.Rings.{Key, nearest_before, nearest_after, IsNearestBefore, IsNearestAfter};
ghost use Rattle.ring_order.specs.Nearest.{IsNumberBefore, IsNumberAfter};

/// What is answered is the number of a nearest key.
pub fn answered_is_nearest()
    ensures before { (keys : List Key) (m : Key) (n : ℕ) → nearest_before keys m ≡ Some n
        → IsNumberBefore keys m n }
    ensures after { (keys : List Key) (m : Key) (n : ℕ) → nearest_after keys m ≡ Some n
        → IsNumberAfter keys m n }
{}

/// The number of a nearest key is the answer, so there is never a second one.
pub fn nearest_is_answered()
    ensures before { (keys : List Key) (m v : Key) → IsNearestBefore keys m v
        → nearest_before keys m ≡ Some v.number }
    ensures after { (keys : List Key) (m v : Key) → IsNearestAfter keys m v
        → nearest_after keys m ≡ Some v.number }
{}

/// Nobody is answered exactly where each listed key is the member's.
pub fn nobody_is_answered()
    ensures before { (keys : List Key) (m : Key)
        → (nearest_before keys m ≡ None) ↔ All (λ k. k.number ≡ m.number) keys }
    ensures after { (keys : List Key) (m : Key)
        → (nearest_after keys m ≡ None) ↔ All (λ k. k.number ≡ m.number) keys }
{}

/// The answer depends only on which keys are listed, and not on their order.
pub fn order_is_free()
    ensures before { (keys kin : List Key) (m : Key)
        → ((v : Key) → Contains keys v ↔ Contains kin v)
        → nearest_before keys m ≡ nearest_before kin m }
    ensures after { (keys kin : List Key) (m : Key) → ((v : Key) → Contains keys v ↔ Contains kin v)
        → nearest_after keys m ≡ nearest_after kin m }
{}
