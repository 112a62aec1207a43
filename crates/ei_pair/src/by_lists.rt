//! What the lists of a pair tell of its handshakes, as laws.

ghost use Rattle.std.specs.Prelude.{◌≡◌, ℕ, Bool, false, List, Option, Result};
ghost use Rattle.ei_spec.specs.Interface.{ObjectView};
ghost use Rattle.ei_types.specs.declared.enums.ContextType.{ContextType};
ghost use Rattle.ei_types.specs.declared.error.Error.{Error};
ghost use Rattle.ei_wire.specs.declared.error.SendError.{SendError};
ghost use Rattle.ei_linked.specs.TwoEnds.{WorldView};
ghost use Rattle.ei_promises.specs.declared.calls.Made.{Made};
ghost use Rattle.ei_promises.specs.declared.calls.ServerCall.{ServerCall};
ghost use Rattle.ei_promises.specs.Pair.{PairView, IsPair, IsNew, with_ends};
ghost use Rattle.ei_promises.specs.Stepping.{StepsServer, StepsClient};
ghost use Rattle.ei_promises.specs.Calling.{DoesAt};
ghost use Rattle.ei_promises.specs.Keeping.{Keeps, SameLists};
ghost use Rattle.ei_pair.specs.declared.client_call.ClientCall.{ClientCall};
ghost use Rattle.ei_pair.specs.Asked.{AsksAt};
ghost use Rattle.ei_pair.specs.Lent.{without_event, without_request};
ghost use Rattle.ei_pair.specs.Done.{AreDoneByLists, HasFirstIds};

use ei_handler::Call;

/// A step of a side leaves the handshakes done exactly where the lists tell it, and a server's connection begins with
/// the first ids.
pub(crate) fn by_lists<H: Call>()
    ensures server { (p new : PairView H) (before after : Option (List ℕ)) (result : Result Bool Error) →
        p.ends.spent ≡ false → IsPair p → Keeps p → StepsServer p before after result new →
        (AreDoneByLists p → AreDoneByLists new) × HasFirstIds p new }
    ensures client { (p new : PairView H) (told now : Option (List ℕ)) (result : Result Bool Error) →
        p.ends.spent ≡ false → IsPair p → Keeps p → StepsClient H.may_answer p told now result new →
        AreDoneByLists p → AreDoneByLists new }
{
    ei_shaking::laws::going_on();
    ei_shaking::laws::both_ends();
    ei_shaking::laws::client_messages();
    ei_shaking::laws::server_messages();
    ei_heeding::laws::events();
}

/// So does every other call, and a new pair begins so.
pub(crate) fn calls_by_lists<H>()
    ensures begins { (name : List ℕ) (kind : ContextType) (serial : ℕ) (p : PairView H) → IsNew name kind serial p →
        AreDoneByLists p }
    ensures does { (p new : PairView H) (s : ServerCall) (result : Result Made SendError) →
        DoesAt p.server s p result new → AreDoneByLists p → AreDoneByLists new }
    ensures asks { (p new : PairView H) (s : ClientCall H) (result : Result (Option ObjectView) SendError) →
        AsksAt p.client s p result new → AreDoneByLists p → AreDoneByLists new }
    ensures moves { (p : PairView H) (w : WorldView) → SameLists p.ends w → AreDoneByLists p →
        AreDoneByLists (with_ends w p) }
    ensures event { (p : PairView H) → AreDoneByLists p →
        AreDoneByLists (record p { client = without_event p.client }) }
    ensures request { (p : PairView H) → AreDoneByLists p →
        AreDoneByLists (record p { server = without_request p.server }) }
{}
