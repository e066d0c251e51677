//! Laws about the memblock calls of a stage. They are proved here once. The proofs of the stages
//! rest on them and needn't consider how memblock's tables grow.

ghost use Rattle.std.specs.Prelude.{◌≡◌, ℕ, List, Result};
ghost use Rattle.bm_base.specs.ResultSteps.{map_error};
ghost use Rattle.memblock_model.specs.declared.owner.Owner.{Owner};
ghost use Rattle.memblock_model.specs.declared.item.Item.{Item};
ghost use Rattle.memblock_model.specs.Items.{memory_of, limit_of};
ghost use Rattle.growth_model.specs.declared.refusal.Refusal.{Refusal as AnyRefusal};
ghost use Rattle.memblock_model.specs.declared.query.Request.{Request as AnyRequest};
ghost use Rattle.growth_model.specs.Change.{Change};
ghost use Rattle.growth_model.specs.Request.{place_for};
ghost use Rattle.growth_model.specs.Ends.{EndsAsChange, Allocates};
ghost use Rattle.memblock_grow.specs.declared.stop.What.{What as AnyWhat};
ghost use Rattle.stage_steps.specs.Causes.{refusal_for, error_of_stage_cause, stop_for_refusal};
ghost use Rattle.stage_steps.specs.Steps.{items_after_step, EndsAsStage};
ghost use Rattle.stage_steps.specs.Requests.{change_or_stop, make_change, place_or_stop};

/// Law: a memblock call ends as the definition of its step says (`make_change` or `change_or_stop`
/// for a change, `place_or_stop` for an allocation). Its value or error and its journal items are
/// those of the step. Only if this program runs out of memory may the last items be missing.
pub fn calls_end_as_steps()
    ensures change { (result : Result (Unit {0}) AnyRefusal) (old new : List Item) (change : Change)
        → EndsAsChange result old new change →
        EndsAsStage (make_change change) refusal_for result old new }
    ensures carried { (thing : AnyWhat) (result : Result (Unit {0}) AnyRefusal)
        (old new : List Item) (change : Change) →
        EndsAsChange result old new change → EndsAsStage (change_or_stop change)
        error_of_stage_cause
        (map_error (stop_for_refusal thing) result) old new }
    ensures placed { (thing : AnyWhat) (result : Result ℕ AnyRefusal) (old new : List Item)
        (request : AnyRequest) (who : Owner) →
        Allocates result old new (place_for request old) request.size who →
        EndsAsStage (place_or_stop thing request who) error_of_stage_cause
        (map_error (stop_for_refusal thing) result) old new }
{}

/// Law: an allocation changes neither memory nor the limit of allocations, whether it finds a place
/// or not.
pub fn allocations_leave_memory()
    ensures memory { (thing : AnyWhat) (request : AnyRequest) (who : Owner) (items : List Item) →
        memory_of (items_after_step items (place_or_stop thing request who items))
        ≡ memory_of items }
    ensures limit { (thing : AnyWhat) (request : AnyRequest) (who : Owner) (items : List Item) →
        limit_of (items_after_step items (place_or_stop thing request who items)) ≡ limit_of items }
{}
