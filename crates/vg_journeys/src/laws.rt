//! Laws of runs: each is a function whose contract is the law.
ghost use Rattle.std.specs.Prelude.{Bool, ◌≡◌, ℕ, suc, ◌+◌, ◌%◌, ◌<◌, ◌≤◌, List, [], ◌∷◌, ◌++◌, length, slice_get, Some, None};
ghost use Rattle.std.specs.List.{sum_by, AllByRecursion};
ghost use Rattle.vg_model.specs.Graph.{Graph, handoff_dequeue};
ghost use Rattle.vg_model.specs.Edit.{most_nodes};
ghost use Rattle.vg_model.specs.Packet.{Packet, fresh};
ghost use Rattle.vg_model.specs.Visit.{Visit};
ghost use Rattle.vg_model.specs.Leg.{Way};
ghost use Rattle.vg_model.specs.Journey.{Journey, journey, first_leg, leg_from};
ghost use Rattle.vg_model.specs.Valid.{IsValid, IsKindSet, IsPacket, AreBytes};
ghost use Rattle.vg_model.specs.declared.fates.Fate.{Fate};
ghost use Rattle.vg_counters.specs.Tally.{Tally};
ghost use Rattle.vg_journeys.specs.Trips.{Run, Arrival, Trip, pieces_before};
ghost use Rattle.vg_journeys.specs.Runs.{AreAllTrips, AreJourneys};
ghost use Rattle.vg_journeys.specs.Accounts.{Account, HandoffFrame, Adds, below, arrivals_in, came};
ghost use Rattle.vg_journeys.specs.Counts.{IsCountIn};
ghost use Rattle.vg_journeys.specs.Balance.{IsBalanced};
ghost use Rattle.vg_journeys.specs.Moments.{begun, StandsFor, IsMoment, IsConserved, IsOver, trips_of, on_the_way};
ghost use Rattle.vg_journeys.specs.Stays.{ChainsStay};
ghost use Rattle.vg_journeys.specs.Kept.{AreKept};
ghost use Rattle.vg_journeys.specs.Turns.{Place, way_at, IsSoundArrival, ComesFrom, IsTurn};
ghost use Rattle.vg_journeys.specs.Steps.{IsStep, replaced};
ghost use Rattle.vg_journeys.specs.Windows.{Comes, AreLimits, next_draws};
ghost use Rattle.vg_journeys.specs.Outcomes.{IsGathered, IsOutcome};
ghost use Rattle.vg_journeys.specs.SameEnd.{IsWithinLimit, EndsAlone};
ghost use Rattle.vg_journeys.specs.LegFacts.{IsLegOf};

/// A leg keeps a packet's number, makes it and its room no larger together, and leaves no more room than a packet may have; it hands it
/// over at a handoff node, to another worker of the run, and where it isn't the fourth.
pub fn legs_hand_over()
    ensures first { (visit : Visit) (g : Graph) (workers worker number : ℕ) (bytes : List ℕ) (way : Way) → IsKindSet visit → IsValid g → 0 < workers
        → AreBytes bytes → first_leg visit g workers worker (fresh number bytes) ≡ Some way → IsLegOf g workers worker 1 (fresh number bytes) way }
    ensures later { (visit : Visit) (g : Graph) (workers worker leg_number first via : ℕ) (p : Packet) (way : Way) → IsKindSet visit → IsValid g
        → 0 < workers → IsPacket p → leg_from visit g workers worker leg_number first via p ≡ Some way → IsLegOf g workers worker leg_number p way }
{}

/// A packet below the limit of a generation, and not below that of the one before, begins in this generation.
pub fn packets_begin_in_their_window()
    ensures { (first limit : ℕ → ℕ) (packets generation i : ℕ) → AreLimits first limit packets → i < packets → i < limit generation
        → ((earlier : ℕ) → suc earlier ≡ generation → limit earlier ≤ i) → first i ≡ generation }
{}

/// What came to a worker grows by the packets that it draws and the frames that it takes.
pub fn what_came_grows()
    ensures { (run : Run) (old new : Account) (many : ℕ) (took : ℕ → List HandoffFrame) (count : Arrival → ℕ) → 0 < run.workers
        → old.mark % run.workers ≡ old.worker → Comes run old new many took
        → came run count old + (sum_by count (next_draws run.workers old.mark many run.packets)
        + sum_by (λ from. sum_by count (arrivals_in old.worker (took from))) (below run.workers)) ≡ came run count new }
{}

/// Every packet that may come to a worker has its leg there.
pub fn arrivals_end()
    ensures { (run : Run) (place : Place) (e : Arrival) → IsKindSet run.visit → IsValid place.graph → IsSoundArrival e → ComesFrom place.graph e
        → (way : Way) × (way_at run place e ≡ Some way) }
{}

/// A turn adds trips.
pub fn turns_add_trips()
    ensures { (run : Run) (place : Place) (arrivals : List Arrival) (old new : Account) → IsKindSet run.visit → IsValid place.graph
        → length place.graph.nodes ≤ most_nodes → 0 < run.workers
        → slice_get run.graphs place.generation ≡ Some place.graph → IsTurn run place arrivals old new → (trips : List Trip) × Adds run old new trips }
{}

/// A turn adds trips, each under the generation of the turn; and where each packet that the turn refused has a count of the queue to the
/// worker that its leg hands it to, so has each of these trips.
pub fn turns_run_under_their_generation()
    ensures under { (run : Run) (place : Place) (arrivals : List Arrival) (old new : Account) → IsKindSet run.visit → IsValid place.graph
        → length place.graph.nodes ≤ most_nodes → 0 < run.workers
        → slice_get run.graphs place.generation ≡ Some place.graph → IsTurn run place arrivals old new
        → (trips : List Trip) × Adds run old new trips × AllByRecursion (λ t. t.generation ≡ place.generation) trips }
    ensures counted { (run : Run) (place : Place) (arrivals : List Arrival) (old new : Account) (lossless : Bool) → IsKindSet run.visit → IsValid place.graph
        → length place.graph.nodes ≤ most_nodes → 0 < run.workers
        → slice_get run.graphs place.generation ≡ Some place.graph → (turn : IsTurn run place arrivals old new)
        → AllByRecursion (λ s. IsCountIn run.slots lossless old.put new.put s.ended.outcome s.refused) turn.settled
        → (trips : List Trip) × Adds run old new trips × AllByRecursion (λ t. t.generation ≡ place.generation) trips
        × AllByRecursion (λ t. IsCountIn run.slots lossless old.put new.put t.way.outcome t.refused) trips }
{}

/// At any moment between the turns of a worker, what it has logged and what it has handed over is what it drew and what it took: number
/// by number, and leg by leg, with one leg more than it came with.
pub fn workers_lose_nothing()
    ensures { (run : Run) (traced worker : ℕ) (a : Account) → StandsFor run traced worker a → IsBalanced run a }
{}

/// A run begins at a moment at which nothing is done, and a turn leads from moment to moment, whichever worker has it.
pub fn turns_lead_on()
    ensures first { (run : Run) (traced : ℕ) → IsMoment run traced (begun traced) (λ from to. []) }
    ensures next { (run : Run) (traced : ℕ) (at : ℕ → Account) (rest after : ℕ → ℕ → List HandoffFrame) (w : ℕ) (new : Account) (trips : List Trip)
        → IsMoment run traced at rest → Adds run (at w) new trips → IsStep run at rest w new after → IsMoment run traced (replaced at w new) after }
{}

/// Under one generation, a packet that no full queue refused and that isn't over by the limit of legs ends as it does on one worker.
pub fn one_generation_ends_packets_alike()
    ensures { (visit : Visit) (graphs : List Graph) (g : Graph) (workers number generation : ℕ) (later : List ℕ) (bytes : List ℕ) (j : Journey)
        → IsValid g → slice_get graphs generation ≡ Some g → AllByRecursion (λ h. slice_get graphs h ≡ Some g) later
        → journey visit graphs workers number bytes (record { generations = generation ∷ later; accepted = None }) ≡ Some j
        → IsWithinLimit j.course.outcome → EndsAlone visit graphs number generation bytes j }
{}

/// Turns one behind the other add what each of them adds.
pub fn turns_add_up()
    ensures { (run : Run) (a b c : Account) (trips more : List Trip) → Adds run a b trips → Adds run b c more → Adds run a c (trips ++ more) }
{}

/// At any moment of a run nothing is lost and nothing is added, whatever the order of the turns was.
pub fn nothing_is_lost()
    ensures { (run : Run) (traced : ℕ) (at : ℕ → Account) (rest : ℕ → ℕ → List HandoffFrame) (moment : IsMoment run traced at rest)
        → IsConserved run at rest (trips_of run traced at (below run.workers) moment.stand) }
{}

/// At any moment the buffers that caches gave out came back to caches, or are in frames on their way; and a queue of which as many
/// frames were taken as it accepted has nothing left.
pub fn buffers_are_counted()
    ensures counted { (run : Run) (traced : ℕ) (at : ℕ → Account) (rest : ℕ → ℕ → List HandoffFrame) → IsMoment run traced at rest
        → sum_by (λ w. (at w).allocated) (below run.workers) ≡ sum_by (λ w. (at w).freed) (below run.workers) + on_the_way run rest pieces_before }
    ensures left { (put taken rest : List HandoffFrame) → put ≡ taken ++ rest → length put ≡ length taken → rest ≡ [] }
{}

/// At any moment each packet has the chain that the capture's packet of its number took when it was drawn: behind every leg that it has gone
/// through, and in every frame on its way.
pub fn chains_stay()
    ensures { (run : Run) (traced : ℕ) (at : ℕ → Account) (rest : ℕ → ℕ → List HandoffFrame) (moment : IsMoment run traced at rest)
        → ChainsStay run rest (trips_of run traced at (below run.workers) moment.stand) }
{}

/// Trips of which each begins with a packet of the capture, or where another one went on, are the journeys of the packets, one for
/// each packet, under lawful choices.
pub fn trips_are_journeys()
    ensures { (run : Run) (trips : List Trip) → AreAllTrips run trips → AreJourneys run trips }
{}

/// What workers have kept, once all packets are drawn and nothing is on its way, is what the journeys of the packets say.
pub fn kept_in_the_end()
    ensures { (run : Run) (traced : ℕ) (at : ℕ → Account) (rest : ℕ → ℕ → List HandoffFrame) → IsMoment run traced at rest → 0 < run.workers → IsOver run at rest
        → AreKept run traced at }
{}

/// What workers have kept, put in order, is what the journeys of the packets say.
pub fn runs_have_outcomes()
    ensures { (run : Run) (traced : ℕ) (at : ℕ → Account) (rest : ℕ → ℕ → List HandoffFrame) (fates : List Fate) (sent : List (ℕ × List ℕ)) (counts : Tally)
        (traces : List (List ℕ)) → IsMoment run traced at rest → 0 < run.workers → IsOver run at rest → traced ≤ length run.packets
        → IsGathered run at fates sent counts traces → IsOutcome run traced fates sent counts traces }
{}
