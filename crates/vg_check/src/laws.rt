//! Laws of what a run puts out: each is a function whose contract is the law.
ghost use Rattle.std.specs.Prelude.{◌≡◌, ◌↔◌, ℕ, List, [], ◌∷◌};
ghost use Rattle.vg_model.specs.Graph.{Graph};
ghost use Rattle.vg_model.specs.declared.kinds.DropError.TheVariants.{Congestion, HandoffLimit};
ghost use Rattle.vg_model.specs.Visit.{Visit, ip4_visit};
ghost use Rattle.vg_model.specs.Valid.{IsValid};
ghost use Rattle.vg_model.specs.Journey.{Journey, Choice};
ghost use Rattle.vg_model.specs.Lawful.{AreLawfulChoices};
ghost use Rattle.vg_capture.specs.declared.captures.Capture.{Capture};
ghost use Rattle.vg_report.specs.declared.reports.Report.{Report};
ghost use Rattle.vg_check.specs.Output.{Setting, IsOutput};
ghost use Rattle.vg_check.specs.Congestion.{NeverCongests, NamesNoRefusal, NamesNoDropBy};
ghost use Rattle.vg_check.specs.declared.verdicts.Verdict.{Verdict};
ghost use Rattle.vg_check.specs.declared.verdicts.Verdict.TheVariants as verdicts;
ghost use Rattle.vg_check.specs.Verdicts.{Case, IsVerdict, IsAccepted};
ghost use Rattle.vg_check.specs.OneWorker.{alone, only_choices, HasOwnEnds};

/// One worker leaves no choice. A packet's only leg is on worker 0, under the generation of its time, and there is no queue to refuse
/// it; so report and savefile follow from the capture and the script.
pub fn one_worker_leaves_no_choice()
    ensures choices { (visit : Visit) (graphs : List Graph) (slots : ℕ) (first : ℕ → ℕ) (packets : List (List ℕ)) (choices : List Choice) (js : List Journey)
        → AreLawfulChoices visit graphs 1 slots first packets choices js → choices ≡ only_choices first 0 packets }
    ensures output { (visit : Visit) (graphs : List Graph) (first : ℕ → ℕ) (setting : Setting) (capture : Capture) (report other : Report) (tx other_tx : List ℕ)
        → setting.workers ≡ 1 → IsOutput visit graphs first setting capture report tx → IsOutput visit graphs first setting capture other other_tx
        → (report ≡ other) × (tx ≡ other_tx) }
{}

/// Where there is one generation, and the report names no drop by a full queue and none by the limit of legs, any number of workers
/// transmits what one worker does: the savefile is that of the same run on one worker.
pub fn one_generation_sends_alike()
    ensures { (visit : Visit) (g : Graph) (first : ℕ → ℕ) (setting : Setting) (capture : Capture) (report : Report) (tx : List ℕ) → IsValid g
        → IsOutput visit (g ∷ []) first setting capture report tx → HasOwnEnds report
        → (other : Report) × IsOutput visit (g ∷ []) first (alone setting) capture other tx }
{}

/// No node of the IPv4 kinds drops a packet by congestion: only a full queue does.
pub fn ip4_never_congests()
    ensures { NeverCongests ip4_visit }
{}

/// Where no node drops a packet by congestion, and no queue refuses one, the report names no congestion. Where besides there is one
/// generation, and the report names no drop by the limit of legs, any number of workers transmits what one worker does.
pub fn lossless_queues_send_all()
    ensures congestion { (visit : Visit) (graphs : List Graph) (first : ℕ → ℕ) (setting : Setting) (capture : Capture) (report : Report) (tx : List ℕ) → NeverCongests visit
        → IsOutput visit graphs first setting capture report tx → NamesNoRefusal report → NamesNoDropBy Congestion report }
    ensures alike { (visit : Visit) (g : Graph) (first : ℕ → ℕ) (setting : Setting) (capture : Capture) (report : Report) (tx : List ℕ) → NeverCongests visit → IsValid g
        → IsOutput visit (g ∷ []) first setting capture report tx → NamesNoRefusal report → NamesNoDropBy HandoffLimit report
        → (other : Report) × IsOutput visit (g ∷ []) first (alone setting) capture other tx }
{}

/// No point fails exactly where the report and the savefile are those of lawful choices, under some setting in range.
pub fn yes_is_exact()
    ensures { (case : Case) (verdict : Verdict) → IsVerdict case verdict → (verdict ≡ verdicts.Yes) ↔ IsAccepted case }
{}

/// There is one verdict of a case: the points exclude one another, and each fails at one place. So the checker answers with each
/// exactly where it stands, but for want of memory.
pub fn verdicts_exclude_one_another()
    ensures { (case : Case) (one other : Verdict) → IsVerdict case one → IsVerdict case other → one ≡ other }
{}
