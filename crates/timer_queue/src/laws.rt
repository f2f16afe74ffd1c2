ghost use Rattle.std.specs.Prelude.{◌≡◌, ℕ, ◌&&◌, ◌||◌, not, List, [], Some, MatchOption, slice_get};
ghost use Rattle.net_base.specs.declared.connection.Cid.{Cid};
ghost use Rattle.net_base.specs.declared.timer.Deadline.{Deadline};
ghost use Rattle.net_base.specs.declared.timer.Kind.{Kind};
ghost use Rattle.timer_queue.specs.Queue.{Queue, IsOrderly, with_timer, without_timer, without_connection};
ghost use Rattle.timer_queue.specs.Timers.{same_timer, has_timer, HaveSame, IsInOrder, IsLeast, least, due_at, where_due, is_of, is_timer_of};

/// The least timer of a list is the one of it that no other one is before.
pub fn the_least_is_before_the_others()
    ensures found { (timers : List Deadline) → MatchOption (least timers) (timers ≡ []) (IsLeast timers) }
    ensures one { (timers : List Deadline) (d : Deadline) → IsLeast timers d → least timers ≡ Some d }
{}

/// Which timer is the least depends on the timers alone, and not on the order of the list.
pub fn the_least_depends_on_the_timers()
    ensures least { (xs ys : List Deadline) → HaveSame xs ys → least xs ≡ least ys }
    ensures due { (now : ℕ) (xs ys : List Deadline) → HaveSame xs ys → least (due_at now xs) ≡ least (due_at now ys) }
{}

/// Of a list in order the least timer is the first, and it is the one that is due, if any is.
pub fn the_first_is_the_least()
    ensures least { (timers : List Deadline) → IsInOrder timers → least timers ≡ slice_get timers 0 }
    ensures due { (now : ℕ) (timers : List Deadline) → IsInOrder timers → least (due_at now timers) ≡ where_due now (slice_get timers 0) }
{}

/// Two lists of the same timers, both in order, are one.
pub fn lists_in_order_are_one()
    ensures { (xs ys : List Deadline) → IsInOrder xs → IsInOrder ys → HaveSame xs ys → xs ≡ ys }
{}

/// What a queue has after a change, timer by timer.
pub fn changes_are_told_by_timers()
    ensures set { (d e : Deadline) (queue : Queue) → IsOrderly queue → has_timer e (with_timer d queue).timers ≡ (same_timer d e || (has_timer e queue.timers && not (is_timer_of d.cid d.kind e))) }
    ensures clear { (cid : Cid) (kind : Kind) (e : Deadline) (queue : Queue) → has_timer e (without_timer cid kind queue).timers ≡ (has_timer e queue.timers && not (is_timer_of cid kind e)) }
    ensures leave { (cid : Cid) (e : Deadline) (queue : Queue) → has_timer e (without_connection cid queue).timers ≡ (has_timer e queue.timers && not (is_of cid e)) }
{}
