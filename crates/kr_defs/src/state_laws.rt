//! What is true of logs with transactions. Each function says so in its contract, and does nothing.

ghost use Rattle.std.specs.Prelude.{◌≡◌, ℕ, ◌+◌, ◌-◌, ◌≤◌, List, take, Option, Some, None, Ok, IfSome};
ghost use Rattle.std.specs.Option.{option_map};
ghost use Rattle.std.specs.Result.{result_err};
ghost use Rattle.kr_defs.specs.declared.record.Item.{Item as AnyItem};
ghost use Rattle.kr_defs.specs.declared.record.Record.TheVariants as kinds;
ghost use Rattle.kr_defs.specs.Image.{Image, IsValid};
ghost use Rattle.kr_defs.specs.Log.{Log, StandsOpen, tip, more, apply_all, closed_end_at, open_at, state_at};
ghost use Rattle.kr_defs.specs.LogStates.{LogState, Opened, IsValidState, IsBehindGoodAt, closed, closed_end, apply_at, apply_all_at, first_ill_at, transaction};

/// Every item that has a meaning keeps both images of a state valid.
pub fn apply_keeps_states_valid()
    ensures { (state after : LogState) (place : ℕ) (item : AnyItem) → IsValidState state →
        apply_at state place item ≡ Ok after → IsValidState after }
{}

/// So does a whole log: its state at each place is valid.
pub fn states_are_valid()
    ensures { (log : Log) (place : ℕ) (state : LogState) → IsValid log.image →
        state_at log place ≡ Ok state → IsValidState state }
{}

/// The state at the tip of a log that is longer by one item is what the item makes of the state before. Below, nothing changes.
pub fn one_item_more_makes_state()
    ensures start { (log : Log) → state_at log log.offset ≡ Ok (closed log.image) }
    ensures tip { (log : Log) (item : AnyItem) (state : LogState) → state_at log (tip log) ≡
        Ok state → state_at (more log item) (tip log + 1) ≡ apply_at state (tip log) item }
    ensures below { (log : Log) (item : AnyItem) (place : ℕ) → place ≤ tip log →
        state_at (more log item) place ≡ state_at log place }
{}

/// Items that have a meaning for images leave the open transaction as it is. A log of such items alone has none open.
pub fn plain_logs_are_closed()
    ensures items { (state : LogState) (place : ℕ) (items : List AnyItem) (after : Image) →
        apply_all state.image items ≡ Ok after →
        apply_all_at state place items ≡ Ok (record state { image = after }) }
    ensures log { (log : Log) (place : ℕ) (image : Image) →
        apply_all log.image (take (place - log.offset) log.items) ≡ Ok image →
        state_at log place ≡ Ok (closed image) }
{}

/// Items between a begin and an end leave the image that they would leave alone; between a begin and an abort they leave nothing.
pub fn transactions_hold_or_not()
    ensures ended { (state : LogState) (place : ℕ) (name : Option (List ℕ)) (inner : List AnyItem)
        (after : Image) → state.opened ≡ None → apply_all state.image inner ≡ Ok after →
        apply_all_at state place (transaction name inner kinds.EndTransaction) ≡ Ok (closed after) }
    ensures aborted { (state : LogState) (place : ℕ) (name reason : Option (List ℕ))
        (inner : List AnyItem) (after : Image) → state.opened ≡ None →
        apply_all state.image inner ≡ Ok after →
        apply_all_at state place (transaction name inner (kinds.AbortTransaction reason)) ≡
        Ok (closed state.image) }
{}

/// The transaction that is open at a place began in the log below it, on the image that it keeps.
pub fn open_transactions_stand()
    ensures { (log : Log) (end : ℕ) (state : LogState) (opened : Opened) → state_at log end ≡
        Ok state → state.opened ≡ Some opened → StandsOpen log end opened }
{}

/// The place of the open transaction, and so the closed end, are those of a log's state, and told by the items alone. The closed
/// end isn't above its place nor below the log's start, and never falls as the place rises.
pub fn closed_ends_are_told()
    ensures place { (log : Log) (place : ℕ) (state : LogState) → state_at log place ≡ Ok state →
        option_map (λ (o : Opened). o.place) state.opened ≡ open_at log place }
    ensures told { (log : Log) (place : ℕ) (state : LogState) → state_at log place ≡ Ok state →
        closed_end state place ≡ closed_end_at log place }
    ensures between { (log : Log) (place : ℕ) → log.offset ≤ place → place ≤ tip log →
        (log.offset ≤ closed_end_at log place) × (closed_end_at log place ≤ place) }
    ensures stays { (log : Log) (low high : ℕ) → log.offset ≤ low → low ≤ high → high ≤ tip log →
        closed_end_at log low ≤ closed_end_at log high }
{}

/// The closed end never falls as the end rises.
pub fn closed_ends_rise()
    ensures { (log : Log) (low high : ℕ) (before after : LogState) → log.offset ≤ low → low ≤ high →
        high ≤ tip log → state_at log low ≡ Ok before → state_at log high ≡
        Ok after → closed_end before low ≤ closed_end after high }
{}

/// The first ill item is named exactly where the items have no state, with the cause that there is none, and all before it have one.
pub fn first_ill_of_states_is_named()
    ensures cause { (state : LogState) (at : ℕ) (items : List AnyItem) → option_map (λ ill. ill.1)
        (first_ill_at state at items) ≡ result_err (apply_all_at state at items) }
    ensures place { (state : LogState) (place : ℕ) (items : List AnyItem) →
        IfSome (first_ill_at state place items) (IsBehindGoodAt state place items) }
{}
