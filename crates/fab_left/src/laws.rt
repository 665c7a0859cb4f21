//! Laws of what is left of a request.
ghost use Rattle.std.specs.Prelude.{◌≡◌, ◌∷◌, ◌++◌, ◌-◌, [], ℕ, suc, Bool, true, false, List, Option, Some, None, length, map, slice_get};
ghost use Rattle.fab_base.specs.FlatMap.{FlatMap, ascends, put};
ghost use Rattle.fab_base.specs.declared.object.Object.{Object};
ghost use Rattle.fab_base.specs.declared.object.Oid.{Oid};
ghost use Rattle.fab_base.specs.declared.object.Stop.{Stop};
ghost use Rattle.fab_base.specs.declared.object.Stop.TheVariants.{Depth, Fuel};
ghost use Rattle.fab_base.specs.declared.object.Tid.{Tid};
ghost use Rattle.fab_base.specs.declared.object.Value.{Value};
ghost use Rattle.fab_tree.specs.declared.resolved.Class.{Class};
ghost use Rattle.fab_tree.specs.declared.resolved.Local.{Local};
ghost use Rattle.fab_tree.specs.declared.resolved.Method.{Method};
ghost use Rattle.fab_tree.specs.declared.resolved.Request.{Request};
ghost use Rattle.fab_tree.specs.declared.resolved.Resolved.{Resolved};
ghost use Rattle.fab_tree.specs.declared.resolved.Return.{Return};
ghost use Rattle.fab_tree.specs.declared.resolved.Returns.{Returns};
ghost use Rattle.fab_tree.specs.declared.resolved.Statement.{Statement};
ghost use Rattle.fab_language.specs.Heaps.{Heap};
ghost use Rattle.fab_language.specs.Meaning.{End, M, Run, State, and_then, back_with, ends, failed, goes, locals_at_start, missing, returned, state_at_start, stopped};
ghost use Rattle.fab_laws.specs.Runs.{state_behind};
ghost use Rattle.fab_erasure.specs.Erased.{blank_result, locals_at_start as erased_locals, returned as erased_returned};
ghost use Rattle.fab_left.specs.Left.{AllStem, Entry, Fresh, IsBegun, IsFinal, IsLeft, IsNew, IsSure, Means, Place, Stems, DiffersLittle, at_start, before, block, finish, handed, left, rest, returning, tried, whole, wider, wider_entry, widened};
ghost use Rattle.fab_left.specs.Deeds.{Deed, Enters, StaysHere, afterwards, entering, pushed};
ghost use Rattle.fab_left.specs.Acts.{act, asked, meanings};
ghost use Rattle.fab_left.specs.ErasedActs.{act as erased_act, asked as erased_asked, meanings as erased_meanings};
ghost use Rattle.fab_left.specs.Steps.{EndsSo, IsSplit, ended};

/// A statement is what it does at once, and then what that leads into.
pub fn statements_lead_on()
    ensures plain { (program : Resolved) (tid : Tid) (p : Place) (s : Statement) (t : State) → (meanings program tid).statement p s t ≡ and_then (act tid s t) (afterwards (meanings program tid) p s) }
    ensures erased { (sees shows : ℕ → Bool) (program : Resolved) (tid : Tid) (p : Place) (s : Statement) (t : State) → let m = erased_meanings sees shows program tid in m.statement p s t ≡ and_then (erased_act sees shows program.classes p.method.locals tid s t) (afterwards m p s) }
{}

/// What a statement does at once it does over more objects too, unless one lacked; and so with what
/// a method returns.
pub fn acts_carry_over()
    ensures acts { (tid : Tid) (known : FlatMap) (s : Statement) (t : State) (more : FlatMap) → Stems tid known t.heap.rows → Fresh tid known more → IsSure (act tid s t) → act tid s (wider more t) ≡ widened more (act tid s t) }
    ensures results { (tid : Tid) (known : FlatMap) (r : Option Return) (t : State) (more : FlatMap) → Stems tid known t.heap.rows → Fresh tid known more → IsSure (returned r t) → returned r (wider more t) ≡ widened more (returned r t) }
    ensures erased_acts { (sees shows : ℕ → Bool) (classes : List Class) (locals : List Local) (tid : Tid) (known : FlatMap) (s : Statement) (t : State) (more : FlatMap) → let does = erased_act sees shows classes locals tid s in Stems tid known t.heap.rows → Fresh tid known more → IsSure (does t) → does (wider more t) ≡ widened more (does t) }
    ensures erased_results { (sees shows : ℕ → Bool) (classes : List Class) (locals : List Local) (tid : Tid) (known : FlatMap) (returns : Option Returns) (r : Option Return) (t : State) (more : FlatMap) → let gives = erased_returned sees shows classes locals returns r in Stems tid known t.heap.rows → Fresh tid known more → IsSure (gives t) → gives (wider more t) ≡ widened more (gives t) }
{}

/// What a statement does at once leaves only objects that are known or that the attempt made.
pub fn acts_leave_no_new_objects()
    ensures acts { (tid : Tid) (known : FlatMap) (s : Statement) (t : State) → Stems tid known t.heap.rows → Stems tid known (state_behind (act tid s t)).heap.rows }
    ensures erased_acts { (sees shows : ℕ → Bool) (classes : List Class) (locals : List Local) (tid : Tid) (known : FlatMap) (s : Statement) (t : State) → Stems tid known t.heap.rows → Stems tid known (state_behind (erased_act sees shows classes locals tid s t)).heap.rows }
{}

/// Where an object lacks, what was done at once has changed nothing but fuel and touches, and these
/// begin with those before. So the state before it comes back by its fuel and the count of its touches.
pub fn misses_change_little()
    ensures acts { (tid : Tid) (s : Statement) (t : State) (site : ℕ) (o : Oid) (u : State) → act tid s t ≡ ends (missing site o) u → DiffersLittle t u }
    ensures results { (r : Option Return) (t : State) (site : ℕ) (o : Oid) (u : State) → returned r t ≡ ends (missing site o) u → DiffersLittle t u }
    ensures erased_acts { (sees shows : ℕ → Bool) (classes : List Class) (locals : List Local) (tid : Tid) (s : Statement) (t : State) (site : ℕ) (o : Oid) (u : State) → erased_act sees shows classes locals tid s t ≡ ends (missing site o) u → DiffersLittle t u }
    ensures erased_results { (sees shows : ℕ → Bool) (classes : List Class) (locals : List Local) (returns : Option Returns) (r : Option Return) (t : State) (site : ℕ) (o : Oid) (u : State) → erased_returned sees shows classes locals returns r t ≡ ends (missing site o) u → DiffersLittle t u }
    ensures back { (t u : State) → DiffersLittle t u → before t.fuel (length t.touches) u ≡ t }
{}

/// A statement costs 1 for what it does at once, however that ends; with no fuel left it is stopped.
/// What a method returns costs nothing.
pub fn acts_cost_one()
    ensures acts { (tid : Tid) (s : Statement) (t : State) → (state_behind (act tid s t)).fuel ≡ t.fuel - 1 }
    ensures starved { (tid : Tid) (s : Statement) (t : State) → t.fuel ≡ 0 → act tid s t ≡ ends (stopped Fuel) t }
    ensures results { (r : Option Return) (t : State) → (state_behind (returned r t)).fuel ≡ t.fuel }
    ensures erased_acts { (sees shows : ℕ → Bool) (classes : List Class) (locals : List Local) (tid : Tid) (s : Statement) (t : State) → (state_behind (erased_act sees shows classes locals tid s t)).fuel ≡ t.fuel - 1 }
    ensures erased_starved { (sees shows : ℕ → Bool) (classes : List Class) (locals : List Local) (tid : Tid) (s : Statement) (t : State) → t.fuel ≡ 0 → erased_act sees shows classes locals tid s t ≡ ends (stopped Fuel) t }
    ensures erased_results { (sees shows : ℕ → Bool) (classes : List Class) (locals : List Local) (returns : Option Returns) (r : Option Return) (t : State) → (state_behind (erased_returned sees shows classes locals returns r t)).fuel ≡ t.fuel }
{}

/// What is left of a request over whatever more objects is, with an answer in it, what is left of
/// the request over the map with that answer. Over the known objects alone it is what the request does.
pub fn answers_go_on()
    ensures begun { (m : Means) (p : Place) (tid : Tid) (does : FlatMap → Run (Option Value)) (known : FlatMap) (ks : List Entry) (t : State) (o : Oid) (x : Object) → IsNew tid known o → IsBegun m p tid does known ks t → IsBegun m p tid does (put o x known) (map (wider_entry ((o, x) ∷ [])) ks) (wider ((o, x) ∷ []) t) }
    ensures kept { (m : Means) (p : Place) (tid : Tid) (does : FlatMap → Run (Option Value)) (known : FlatMap) (js ks : List Entry) (s t : State) → IsBegun m p tid does known js s → IsLeft m p tid known ks t js s → IsBegun m p tid does known ks t }
    ensures now { (m : Means) (p : Place) (tid : Tid) (does : FlatMap → Run (Option Value)) (known : FlatMap) (ks : List Entry) (t : State) → IsBegun m p tid does known ks t → does known ≡ left m p ks t [] }
    ensures stem { (tid : Tid) (known : FlatMap) (ks : List Entry) (t : State) (o : Oid) (x : Object) → IsNew tid known o → AllStem tid known ks t → AllStem tid (put o x known) (map (wider_entry ((o, x) ∷ [])) ks) (wider ((o, x) ∷ []) t) }
{}

/// The meaning and the erased one are split into what each statement does at once and what that
/// leads into.
pub fn meanings_are_split()
    ensures plain { (program : Resolved) (tid : Tid) → IsSplit (meanings program tid) tid (λ p. act tid) }
    ensures erased { (sees shows : ℕ → Bool) (program : Resolved) (tid : Tid) → IsSplit (erased_meanings sees shows program tid) tid (λ p. erased_act sees shows program.classes p.method.locals tid) }
{}

/// What a statement leads into stands behind what is left, or a call is entered from there.
pub fn deeds_are_put_behind()
    ensures here { (m : Means) (p : Place) (s : Statement) (ss : List Statement) (t : State) (ks : List Entry) (d : Deed) → StaysHere d → finish m (ks ++ pushed p s ss t d) (goes tt t) ≡ finish m ks (and_then (afterwards m p s d t) (λ _. block m p ss)) }
    ensures calls { (m : Means) (p : Place) (s : Statement) (ss : List Statement) (t : State) (ks : List Entry) (number : ℕ) (args : List Value) (target : Option ℕ) (callee : Place) (locals : List Value) → Enters m p number args t callee locals → finish m (ks ++ rest p ss ∷ returning callee p t.locals target ∷ rest callee callee.method.body ∷ []) (goes tt (record t { locals = locals })) ≡ finish m ks (and_then (afterwards m p s (entering number args target) t) (λ _. block m p ss)) }
    ensures at_once { (m : Means) (p : Place) (s : Statement) (ss : List Statement) (t : State) (ks : List Entry) (number : ℕ) (args : List Value) (target : Option ℕ) (v : Option Value) (u : State) → m.call p number args t ≡ goes v u → finish m (ks ++ rest p ss ∷ []) (handed m p target v u) ≡ finish m ks (and_then (afterwards m p s (entering number args target) t) (λ _. block m p ss)) }
    ensures at_end { (m : Means) (p : Place) (s : Statement) (ss : List Statement) (t : State) (ks : List Entry) (number : ℕ) (args : List Value) (target : Option ℕ) (e : End) (u : State) → m.call p number args t ≡ ends e u → finish m ks (ends e u) ≡ finish m ks (and_then (afterwards m p s (entering number args target) t) (λ _. block m p ss)) }
{}

/// A block of which nothing is left, and a trial that went on, are over; and a call whose body is over
/// gives the result of its method.
pub fn what_is_over_passes()
    ensures blocks { (m : Means) (ks : List Entry) (p : Place) (t : State) → finish m (ks ++ rest p [] ∷ []) (goes tt t) ≡ finish m ks (goes tt t) }
    ensures trials { (m : Means) (ks : List Entry) (p : Place) (locals : List Value) (heap : Heap) (ss : List Statement) (t : State) → finish m (ks ++ tried p locals heap ss ∷ []) (goes tt t) ≡ finish m ks (goes tt t) }
    ensures calls { (m : Means) (ks : List Entry) (callee caller : Place) (locals : List Value) (target : Option ℕ) (t : State) → finish m (ks ++ returning callee caller locals target ∷ []) (goes tt t) ≡ finish m ks (and_then (back_with locals (m.result callee t)) (handed m caller target)) }
{}

/// A failure goes on, entry by entry, at the last block that is tried; any other end is the end of
/// all, and a failure too where nothing is left.
pub fn failures_unwind()
    ensures blocks { (m : Means) (ks : List Entry) (p : Place) (ss : List Statement) (t : State) → finish m (ks ++ rest p ss ∷ []) (ends failed t) ≡ finish m ks (ends failed t) }
    ensures calls { (m : Means) (ks : List Entry) (callee caller : Place) (locals : List Value) (target : Option ℕ) (t : State) → finish m (ks ++ returning callee caller locals target ∷ []) (ends failed t) ≡ finish m ks (ends failed (record t { locals = locals })) }
    ensures trials { (m : Means) (ks : List Entry) (p : Place) (locals : List Value) (heap : Heap) (ss : List Statement) (t : State) → finish m (ks ++ tried p locals heap ss ∷ []) (ends failed t) ≡ finish m (ks ++ rest p ss ∷ []) (goes tt (record t { locals = locals; heap = heap })) }
    ensures nothing { (m : Means) (p : Place) (t : State) → whole m p (finish m [] (ends failed t)) ≡ ends failed (record t { locals = [] }) }
    ensures others { (m : Means) (p : Place) (ks : List Entry) (e : End) (t : State) → (e ≡ failed → ⊥) → whole m p (finish m ks (ends e t)) ≡ ends e (record t { locals = [] }) }
{}

/// One step keeps what is left, over whatever more objects that are new.
pub fn steps_keep_what_is_left()
    ensures acts { (m : Means) (first : Place) (tid : Tid) (acts : Place → Statement → M Deed) (known : FlatMap) (ks : List Entry) (p : Place) (s : Statement) (ss : List Statement) (t u : State) (d : Deed) → IsSplit m tid acts → Stems tid known t.heap.rows → StaysHere d → acts p s t ≡ goes d u → IsLeft m first tid known (ks ++ pushed p s ss u d) u (ks ++ rest p (s ∷ ss) ∷ []) t }
    ensures calls { (m : Means) (first : Place) (tid : Tid) (acts : Place → Statement → M Deed) (known : FlatMap) (ks : List Entry) (p : Place) (s : Statement) (ss : List Statement) (t u : State) (number : ℕ) (args : List Value) (target : Option ℕ) (callee : Place) (locals : List Value) → IsSplit m tid acts → Stems tid known t.heap.rows → acts p s t ≡ goes (entering number args target) u → ((w : State) → Enters m p number args w callee locals) → IsLeft m first tid known (ks ++ rest p ss ∷ returning callee p u.locals target ∷ rest callee callee.method.body ∷ []) (record u { locals = locals }) (ks ++ rest p (s ∷ ss) ∷ []) t }
    ensures passes { (m : Means) (first : Place) (tid : Tid) (acts : Place → Statement → M Deed) (known : FlatMap) (ks : List Entry) (p : Place) (s : Statement) (ss : List Statement) (t u w : State) (number : ℕ) (args : List Value) (target : Option ℕ) (v : Option Value) → IsSplit m tid acts → Stems tid known t.heap.rows → acts p s t ≡ goes (entering number args target) u → ((z : State) → m.call p number args z ≡ goes v z) → handed m p target v u ≡ goes tt w → IsLeft m first tid known (ks ++ rest p ss ∷ []) w (ks ++ rest p (s ∷ ss) ∷ []) t }
    ensures given_back { (m : Means) (first : Place) (tid : Tid) (acts : Place → Statement → M Deed) (known : FlatMap) (ks : List Entry) (callee caller : Place) (locals : List Value) (target : Option ℕ) (t u w : State) (v : Option Value) → IsSplit m tid acts → Stems tid known t.heap.rows → m.result callee t ≡ goes v u → handed m caller target v (record u { locals = locals }) ≡ goes tt w → IsLeft m first tid known ks w (ks ++ returning callee caller locals target ∷ []) t }
    ensures blocks { (m : Means) (first : Place) (tid : Tid) (known : FlatMap) (ks : List Entry) (p : Place) (t : State) → IsLeft m first tid known ks t (ks ++ rest p [] ∷ []) t }
    ensures trials { (m : Means) (first : Place) (tid : Tid) (known : FlatMap) (ks : List Entry) (p : Place) (locals : List Value) (heap : Heap) (ss : List Statement) (t : State) → IsLeft m first tid known ks t (ks ++ tried p locals heap ss ∷ []) t }
{}

/// Where a step fails or is stopped, the same comes of what was left as of that end, over whatever
/// more objects that are new.
pub fn steps_end_so()
    ensures acts { (m : Means) (first : Place) (tid : Tid) (acts : Place → Statement → M Deed) (known : FlatMap) (ks : List Entry) (p : Place) (s : Statement) (ss : List Statement) (t u : State) (e : End) → IsSplit m tid acts → Stems tid known t.heap.rows → IsFinal e → acts p s t ≡ ends e u → EndsSo m first tid known ks e u (ks ++ rest p (s ∷ ss) ∷ []) t }
    ensures calls { (m : Means) (first : Place) (tid : Tid) (acts : Place → Statement → M Deed) (known : FlatMap) (ks : List Entry) (p : Place) (s : Statement) (ss : List Statement) (t u : State) (number : ℕ) (args : List Value) (target : Option ℕ) (stop : Stop) → IsSplit m tid acts → Stems tid known t.heap.rows → acts p s t ≡ goes (entering number args target) u → ((w : State) → m.call p number args w ≡ ends (stopped stop) w) → EndsSo m first tid known ks (stopped stop) u (ks ++ rest p (s ∷ ss) ∷ []) t }
    ensures results { (m : Means) (first : Place) (tid : Tid) (acts : Place → Statement → M Deed) (known : FlatMap) (ks : List Entry) (callee caller : Place) (locals : List Value) (target : Option ℕ) (t u : State) (e : End) → IsSplit m tid acts → Stems tid known t.heap.rows → IsFinal e → m.result callee t ≡ ends e u → EndsSo m first tid known ks e (record u { locals = locals }) (ks ++ returning callee caller locals target ∷ []) t }
    ensures last { (m : Means) (first : Place) (tid : Tid) (acts : Place → Statement → M Deed) (known : FlatMap) (t : State) (more : FlatMap) → IsSplit m tid acts → Stems tid known t.heap.rows → IsSure (m.result first t) → Fresh tid known more → left m first [] t more ≡ widened more (back_with [] (m.result first t)) }
{}

/// Where an object lacks, all lacks it.
pub fn steps_that_lack()
    ensures acts { (m : Means) (first : Place) (tid : Tid) (acts : Place → Statement → M Deed) (ks : List Entry) (p : Place) (s : Statement) (ss : List Statement) (t u : State) (site : ℕ) (o : Oid) → IsSplit m tid acts → acts p s t ≡ ends (missing site o) u → left m first (ks ++ rest p (s ∷ ss) ∷ []) t [] ≡ ends (missing site o) (record u { locals = [] }) }
    ensures results { (m : Means) (first : Place) (ks : List Entry) (callee caller : Place) (locals : List Value) (target : Option ℕ) (t u : State) (site : ℕ) (o : Oid) → m.result callee t ≡ ends (missing site o) u → left m first (ks ++ returning callee caller locals target ∷ []) t [] ≡ ends (missing site o) (record u { locals = [] }) }
    ensures last { (m : Means) (first : Place) (t : State) → left m first [] t [] ≡ back_with [] (m.result first t) }
{}

/// A failure goes on, entry by entry, over whatever more objects; any other end is the end of all.
pub fn ends_unwind()
    ensures blocks { (m : Means) (first : Place) (ks : List Entry) (p : Place) (ss : List Statement) (t : State) (more : FlatMap) → ended m first (ks ++ rest p ss ∷ []) failed t more ≡ ended m first ks failed t more }
    ensures calls { (m : Means) (first : Place) (ks : List Entry) (callee caller : Place) (locals : List Value) (target : Option ℕ) (t : State) (more : FlatMap) → ended m first (ks ++ returning callee caller locals target ∷ []) failed t more ≡ ended m first ks failed (record t { locals = locals }) more }
    ensures trials { (m : Means) (first : Place) (ks : List Entry) (p : Place) (locals : List Value) (heap : Heap) (ss : List Statement) (t : State) (more : FlatMap) → ended m first (ks ++ tried p locals heap ss ∷ []) failed t more ≡ left m first (ks ++ rest p ss ∷ []) (record t { locals = locals; heap = heap }) more }
    ensures nothing { (m : Means) (first : Place) (t : State) (more : FlatMap) → ended m first [] failed t more ≡ ends failed (record (wider more t) { locals = [] }) }
    ensures others { (m : Means) (first : Place) (ks : List Entry) (e : End) (t : State) (more : FlatMap) → (e ≡ failed → ⊥) → ended m first ks e t more ≡ ends e (record (wider more t) { locals = [] }) }
{}

/// Step by step, only known objects and those that the attempt made stand in a state and in what is
/// left.
pub fn steps_leave_no_new_objects()
    ensures acts { (tid : Tid) (known : FlatMap) (m : Means) (acts : Place → Statement → M Deed) (ks : List Entry) (p : Place) (s : Statement) (ss : List Statement) (t u : State) (d : Deed) → IsSplit m tid acts → AllStem tid known (ks ++ rest p (s ∷ ss) ∷ []) t → acts p s t ≡ goes d u → AllStem tid known (ks ++ pushed p s ss u d) u }
    ensures at_end { (tid : Tid) (known : FlatMap) (m : Means) (acts : Place → Statement → M Deed) (ks : List Entry) (p : Place) (s : Statement) (ss : List Statement) (t u : State) (e : End) → IsSplit m tid acts → AllStem tid known (ks ++ rest p (s ∷ ss) ∷ []) t → acts p s t ≡ ends e u → AllStem tid known ks u }
    ensures gone { (tid : Tid) (known : FlatMap) (ks : List Entry) (k : Entry) (t : State) (locals : List Value) → AllStem tid known (ks ++ k ∷ []) t → AllStem tid known ks (record t { locals = locals }) }
    ensures entered { (tid : Tid) (known : FlatMap) (ks : List Entry) (p callee : Place) (ss body : List Statement) (target : Option ℕ) (t : State) (locals : List Value) → AllStem tid known (ks ++ rest p ss ∷ []) t → AllStem tid known (ks ++ rest p ss ∷ returning callee p t.locals target ∷ rest callee body ∷ []) (record t { locals = locals }) }
    ensures passes { (tid : Tid) (known : FlatMap) (m : Means) (acts : Place → Statement → M Deed) (ks : List Entry) (p : Place) (target : Option ℕ) (v : Option Value) (u w : State) → IsSplit m tid acts → AllStem tid known ks u → handed m p target v u ≡ goes tt w → AllStem tid known ks w }
    ensures given_back { (tid : Tid) (known : FlatMap) (m : Means) (acts : Place → Statement → M Deed) (ks : List Entry) (callee caller : Place) (locals : List Value) (target : Option ℕ) (t u w : State) (v : Option Value) → IsSplit m tid acts → AllStem tid known (ks ++ returning callee caller locals target ∷ []) t → m.result callee t ≡ goes v u → handed m caller target v (record u { locals = locals }) ≡ goes tt w → AllStem tid known ks w }
    ensures result_at_end { (tid : Tid) (known : FlatMap) (m : Means) (acts : Place → Statement → M Deed) (ks : List Entry) (callee caller : Place) (locals : List Value) (target : Option ℕ) (t u : State) (e : End) → IsSplit m tid acts → AllStem tid known (ks ++ returning callee caller locals target ∷ []) t → m.result callee t ≡ ends e u → AllStem tid known ks (record u { locals = locals }) }
    ensures caught { (tid : Tid) (known : FlatMap) (ks : List Entry) (p : Place) (locals : List Value) (heap : Heap) (ss : List Statement) (t : State) → AllStem tid known (ks ++ tried p locals heap ss ∷ []) t → AllStem tid known (ks ++ rest p ss ∷ []) (record t { locals = locals; heap = heap }) }
{}

/// A call enters its method, if there is one, at a place one call deeper. Where no call more may be
/// open it is stopped, and a method that isn't seen gives a blank.
pub fn calls_enter()
    ensures plain { (program : Resolved) (tid : Tid) (caller method : Method) (depth number : ℕ) (args : List Value) (t : State) → slice_get program.methods number ≡ Some method → Enters (meanings program tid) (record { method = caller; depth = suc depth }) number args t (record { method = method; depth = depth }) (locals_at_start method args) }
    ensures erased { (sees shows : ℕ → Bool) (program : Resolved) (tid : Tid) (caller method : Method) (depth number : ℕ) (args : List Value) (t : State) → slice_get program.methods number ≡ Some method → sees method.begin.number ≡ true → Enters (erased_meanings sees shows program tid) (record { method = caller; depth = suc depth }) number args t (record { method = method; depth = depth }) (erased_locals sees shows method args) }
    ensures skipped { (sees shows : ℕ → Bool) (program : Resolved) (tid : Tid) (p : Place) (method : Method) (number : ℕ) (args : List Value) (t : State) → slice_get program.methods number ≡ Some method → sees method.begin.number ≡ false → (erased_meanings sees shows program tid).call p number args t ≡ goes (blank_result sees shows (Some method)) t }
    ensures none { (program : Resolved) (tid : Tid) (caller : Method) (depth number : ℕ) (args : List Value) (t : State) → slice_get program.methods number ≡ None → (meanings program tid).call (record { method = caller; depth = suc depth }) number args t ≡ goes None t }
    ensures none_erased { (sees shows : ℕ → Bool) (program : Resolved) (tid : Tid) (caller : Method) (depth number : ℕ) (args : List Value) (t : State) → slice_get program.methods number ≡ None → (erased_meanings sees shows program tid).call (record { method = caller; depth = suc depth }) number args t ≡ goes None t }
    ensures deep { (program : Resolved) (tid : Tid) (caller : Method) (number : ℕ) (args : List Value) (t : State) → (meanings program tid).call (record { method = caller; depth = 0 }) number args t ≡ ends (stopped Depth) t }
    ensures deep_erased { (sees shows : ℕ → Bool) (program : Resolved) (tid : Tid) (caller method : Method) (number : ℕ) (args : List Value) (t : State) → slice_get program.methods number ≡ Some method → sees method.begin.number ≡ true → (erased_meanings sees shows program tid).call (record { method = caller; depth = 0 }) number args t ≡ ends (stopped Depth) t }
    ensures deep_none { (sees shows : ℕ → Bool) (program : Resolved) (tid : Tid) (caller : Method) (number : ℕ) (args : List Value) (t : State) → slice_get program.methods number ≡ None → (erased_meanings sees shows program tid).call (record { method = caller; depth = 0 }) number args t ≡ ends (stopped Depth) t }
{}

/// A request is begun with the body of its method. Without a method it gives nothing, and where that
/// isn't seen a blank.
pub fn requests_begin()
    ensures plain { (program : Resolved) (tid : Tid) (request : Request) (fuel : ℕ) (known : FlatMap) (method : Method) → slice_get program.methods request.method ≡ Some method → IsBegun (meanings program tid) (at_start method) tid (asked program tid request fuel) known (rest (at_start method) method.body ∷ []) (record (state_at_start known fuel) { locals = locals_at_start method request.args }) }
    ensures erased { (sees shows : ℕ → Bool) (program : Resolved) (tid : Tid) (request : Request) (fuel : ℕ) (given : List Value) (known : FlatMap) (method : Method) → slice_get program.methods request.method ≡ Some method → sees method.begin.number ≡ true → IsBegun (erased_meanings sees shows program tid) (at_start method) tid (erased_asked sees shows program tid request fuel given) known (rest (at_start method) method.body ∷ []) (record (state_at_start known fuel) { locals = erased_locals sees shows method request.args; given = given }) }
    ensures none { (program : Resolved) (tid : Tid) (request : Request) (fuel : ℕ) (known : FlatMap) → slice_get program.methods request.method ≡ None → asked program tid request fuel known ≡ goes None (state_at_start known fuel) }
    ensures none_erased { (sees shows : ℕ → Bool) (program : Resolved) (tid : Tid) (request : Request) (fuel : ℕ) (given : List Value) (known : FlatMap) → slice_get program.methods request.method ≡ None → erased_asked sees shows program tid request fuel given known ≡ goes None (record (state_at_start known fuel) { given = given }) }
    ensures skipped { (sees shows : ℕ → Bool) (program : Resolved) (tid : Tid) (request : Request) (fuel : ℕ) (given : List Value) (known : FlatMap) (method : Method) → slice_get program.methods request.method ≡ Some method → sees method.begin.number ≡ false → erased_asked sees shows program tid request fuel given known ≡ goes (blank_result sees shows (Some method)) (record (state_at_start known fuel) { given = given }) }
    ensures stem { (tid : Tid) (known : FlatMap) (method : Method) (fuel : ℕ) (locals given : List Value) → ascends known ≡ true → AllStem tid known (rest (at_start method) method.body ∷ []) (record (state_at_start known fuel) { locals = locals; given = given }) }
{}

/// Where a statement that comes next lacks an object, or what a method returns does, the request lacks
/// it; and from the state before it, with the answer, what is left is the request over the map with
/// that answer.
pub fn pauses_go_on()
    ensures acts_lack { (m : Means) (first : Place) (tid : Tid) (does : FlatMap → Run (Option Value)) (known : FlatMap) (acts : Place → Statement → M Deed) (ks : List Entry) (p : Place) (s : Statement) (ss : List Statement) (t u : State) (site : ℕ) (o : Oid) → IsSplit m tid acts → IsBegun m first tid does known (ks ++ rest p (s ∷ ss) ∷ []) t → acts p s t ≡ ends (missing site o) u → does known ≡ ends (missing site o) (record u { locals = [] }) }
    ensures acts_go_on { (m : Means) (first : Place) (tid : Tid) (does : FlatMap → Run (Option Value)) (known : FlatMap) (acts : Place → Statement → M Deed) (ks : List Entry) (p : Place) (s : Statement) (ss : List Statement) (t u : State) (site : ℕ) (o : Oid) (x : Object) → IsSplit m tid acts → IsNew tid known o → IsBegun m first tid does known (ks ++ rest p (s ∷ ss) ∷ []) t → acts p s t ≡ ends (missing site o) u → IsBegun m first tid does (put o x known) (map (wider_entry ((o, x) ∷ [])) (ks ++ rest p (s ∷ ss) ∷ [])) (wider ((o, x) ∷ []) (before t.fuel (length t.touches) u)) }
    ensures results_lack { (m : Means) (first : Place) (tid : Tid) (does : FlatMap → Run (Option Value)) (known : FlatMap) (ks : List Entry) (callee caller : Place) (locals : List Value) (target : Option ℕ) (t u : State) (site : ℕ) (o : Oid) → IsBegun m first tid does known (ks ++ returning callee caller locals target ∷ []) t → m.result callee t ≡ ends (missing site o) u → does known ≡ ends (missing site o) (record u { locals = [] }) }
    ensures results_go_on { (m : Means) (first : Place) (tid : Tid) (does : FlatMap → Run (Option Value)) (known : FlatMap) (acts : Place → Statement → M Deed) (ks : List Entry) (callee caller : Place) (locals : List Value) (target : Option ℕ) (t u : State) (site : ℕ) (o : Oid) (x : Object) → IsSplit m tid acts → IsNew tid known o → IsBegun m first tid does known (ks ++ returning callee caller locals target ∷ []) t → m.result callee t ≡ ends (missing site o) u → IsBegun m first tid does (put o x known) (map (wider_entry ((o, x) ∷ [])) (ks ++ returning callee caller locals target ∷ [])) (wider ((o, x) ∷ []) (before t.fuel (length t.touches) u)) }
    ensures last_goes_on { (m : Means) (first : Place) (tid : Tid) (does : FlatMap → Run (Option Value)) (known : FlatMap) (acts : Place → Statement → M Deed) (t u : State) (site : ℕ) (o : Oid) (x : Object) → IsSplit m tid acts → IsNew tid known o → IsBegun m first tid does known [] t → m.result first t ≡ ends (missing site o) u → IsBegun m first tid does (put o x known) [] (wider ((o, x) ∷ []) (before t.fuel (length t.touches) u)) }
{}

/// A request of which only the result of its method is left does what that does; and it ends as what
/// is left of it ends.
pub fn requests_end_so()
    ensures last { (m : Means) (first : Place) (tid : Tid) (does : FlatMap → Run (Option Value)) (known : FlatMap) (t : State) → IsBegun m first tid does known [] t → does known ≡ back_with [] (m.result first t) }
    ensures others { (m : Means) (first : Place) (tid : Tid) (does : FlatMap → Run (Option Value)) (known : FlatMap) (js ks : List Entry) (s t : State) (e : End) → (e ≡ failed → ⊥) → IsBegun m first tid does known js s → EndsSo m first tid known ks e t js s → does known ≡ ends e (record t { locals = [] }) }
    ensures fails { (m : Means) (first : Place) (tid : Tid) (does : FlatMap → Run (Option Value)) (known : FlatMap) (js : List Entry) (s t : State) → IsBegun m first tid does known js s → EndsSo m first tid known [] failed t js s → does known ≡ ends failed (record t { locals = [] }) }
{}
