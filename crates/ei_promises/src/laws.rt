//! The laws. Each function does nothing: its clauses are the laws.

ghost use Rattle.std.specs.Prelude.{◌≡◌, ℕ, ◌<◌, ◌^◌, ◌⊎◌, Bool, true, false, List, [], ◌∷◌, Option, Some, Result};
ghost use Rattle.std.specs.Str.{is_utf8};
ghost use Rattle.ei_types.specs.declared.enums.ContextType.{ContextType};
ghost use Rattle.ei_types.specs.declared.error.Error.{Error};
ghost use Rattle.ei_wire.specs.declared.error.ReadError.{ReadError};
ghost use Rattle.ei_backend.specs.Backend.{BackendView};
ghost use Rattle.ei_backend.specs.declared.message.PendingRequestResult.TheVariants as pending;
ghost use Rattle.ei_backend.specs.Table.{own_limit};
ghost use Rattle.ei_ends.specs.Steps.{called};
ghost use Rattle.ei_ends.specs.Joined.{Joined};
ghost use Rattle.ei_client.specs.declared.event.Event.{Event};
ghost use Rattle.ei_server.specs.declared.request.Request.{Request};
ghost use Rattle.ei_server.specs.Request.{target_of as request_target};
ghost use Rattle.ei_handshake.specs.declared.client.HandshakeResp.{HandshakeResp};
ghost use Rattle.ei_handshake.specs.declared.server.EisHandshakeResp.{EisHandshakeResp};
ghost use Rattle.ei_handshake.specs.Client.{ClientView, HandlesEvent};
ghost use Rattle.ei_handshake.specs.Handshaker.{HandshakerView};
ghost use Rattle.ei_handshake.specs.Handshaker as handshaker;
ghost use Rattle.ei_spec.specs.Interface.{ObjectView};
ghost use Rattle.ei_linked.specs.declared.record.Record.{Record};
ghost use Rattle.ei_linked.specs.declared.side.Side.{Side};
ghost use Rattle.ei_linked.specs.declared.side.Side.TheVariants as side;
ghost use Rattle.ei_linked.specs.TwoEnds.{WorldView, end_of, read_world, flushed_world, DeliversAt};
ghost use Rattle.ei_event.specs.declared.event.EiEvent.{EiEvent};
ghost use Rattle.ei_event.specs.Typed.{IsLawfulReason};
ghost use Rattle.ei_event.specs.Kept.{KeptView};
ghost use Rattle.ei_event.specs.Converter.{ConverterView as ClientConverter, with_queue};
ghost use Rattle.ei_event.specs.Handles.{Handles as HandlesTold};
ghost use Rattle.ei_request.specs.declared.event.EisRequest.{EisRequest};
ghost use Rattle.ei_request.specs.Connection.{ConnectionView};
ghost use Rattle.ei_request.specs.Converter.{ConverterView as ServerConverter};
ghost use Rattle.ei_request.specs.Handling.{handled, Handles as HandlesAsked};
ghost use Rattle.ei_request.specs.Typed.{meaning_of};
ghost use Rattle.ei_acts.specs.Holding.{IsTargetOf};
ghost use Rattle.ei_acts.specs.Acting.{Makes, IsSteady};
ghost use Rattle.ei_acts.specs.Allowed.{MayAnswer, MayDo};
ghost use Rattle.ei_acts.specs.Serving.{Serves as IsServer};
ghost use Rattle.ei_promises.specs.declared.calls.ServerCall.{ServerCall};
ghost use Rattle.ei_promises.specs.Pair.{Asks, Follows, Shakes, Serves, PairView, IsPair, IsNew, with_ends, maps_of};
ghost use Rattle.ei_promises.specs.Stepping.{ReadsRequest, ReadsEvent, settled_on, server_after, answered_on};
ghost use Rattle.ei_promises.specs.Stepping.{asked_on, client_after, ponged_on, answered_on_event};
ghost use Rattle.ei_promises.specs.Stepping.{StepsServer, StepsClient, IsSpent, server_handed};
ghost use Rattle.ei_promises.specs.Calling.{act_of, server_called, server_done_so, client_sent_so, sync_of, SyncsWith};
ghost use Rattle.ei_promises.specs.Promises.{ShakesFreely, RefusesNone, Completes, SettlesTheSame, CallsInTime, TakesAll};
ghost use Rattle.ei_promises.specs.Keeping.{HasSentAll, Keeps, SameLists};

use ei_handler::Call;

/// What a call of a server does, and a request that its converter takes: the two ends stay joined, and the server one of
/// them.
pub fn calling()
    ensures called { (s : ServerCall) (w : WorldView) (c left : ConnectionView) (was steady : Bool) →
        Joined true (end_of side.Server w) (end_of side.Client w) w.to_client w.to_server →
        IsServer (end_of side.Server w) c was → MayDo (act_of s w) (end_of side.Server w) c →
        Makes (act_of s w) c left → (steady ≡ true → (was ≡ true) × IsSteady (act_of s w) c) →
        Joined true (end_of side.Server (server_called s w c left)) (end_of side.Client w) w.to_client w.to_server ×
        IsServer (end_of side.Server (server_called s w c left)) left steady }
    ensures answered { (r : Request) (w : WorldView) (c left : ServerConverter) (time : ℕ) (was : Bool) →
        Joined true (end_of side.Server w) (end_of side.Client w) w.to_client w.to_server →
        IsServer (end_of side.Server w) c.handle was → MayAnswer (meaning_of r) (end_of side.Server w) →
        IsTargetOf (meaning_of r) c.handle.ctx.table (request_target r).id →
        left ≡ handled c (request_target r).id (meaning_of r) time →
        Joined true (end_of side.Server (server_handed r w c left)) (end_of side.Client w) w.to_client w.to_server ×
        IsServer (end_of side.Server (server_handed r w c left)) left.handle was }
{}

/// What a server sends for a request that it took, while it shakes hands and once it serves. The maps of a pair whose
/// server shakes hands are none, whatever comes of it, and what was settled stays.
pub fn server_sends<H>()
    ensures shakes { (p : PairView H) (h left : HandshakerView) (r : Request)
        (answer : Result (Option EisHandshakeResp) Error) (ctx : BackendView) →
        p.ends.spent ≡ false → IsPair p → Keeps p → p.server ≡ Shakes h →
        ReadsRequest (Some (pending.Request r)) p.ends (read_world side.Server p.ends) →
        handshaker.Handles h (read_world side.Server p.ends).server.backend r answer left ctx →
        HasSentAll true (settled_on answer h (read_world side.Server p.ends).server.backend.table.next_own)
        (end_of side.Server (read_world side.Server p.ends)) ctx ×
        (maps_of p.client (server_after answer left h.serial ctx) ≡ maps_of p.client p.server) }
    ensures serves { (p : PairView H) (c left : ServerConverter) (r : Request) (before after : Option (List ℕ))
        (answer : Result Unit Error) →
        p.ends.spent ≡ false → IsPair p → Keeps p → p.server ≡ Serves c →
        ReadsRequest (Some (pending.Request r)) p.ends (read_world side.Server p.ends) →
        HandlesAsked (record c {
          handle = record c.handle {
            ctx = (read_world side.Server p.ends).server.backend;
          };
        }) r before answer after left →
        HasSentAll true (answered_on answer (record c {
          handle = record c.handle {
            ctx = (read_world side.Server p.ends).server.backend;
          };
        }) r) (end_of side.Server (read_world side.Server p.ends)) left.handle.ctx ×
        (left.handle.negotiated ≡ c.handle.negotiated) }
{
    ei_shaking::laws::going_on();
    ei_shaking::laws::both_ends();
    ei_shaking::laws::client_messages();
    ei_shaking::laws::server_messages();
}

/// What a client sends for an event that it took, while it shakes hands and once it follows the server. Where its
/// handshake is done by that it sent nothing, and a converter keeps what was settled.
pub fn client_sends<H: Call>()
    ensures asks { (p : PairView H) (k left : ClientView) (e : Event)
        (answer : Result (Option HandshakeResp) Error) (ctx : BackendView) →
        p.ends.spent ≡ false → IsPair p → Keeps p → p.client ≡ Asks k →
        ReadsEvent (Some (pending.Request e)) p.ends (read_world side.Client p.ends) →
        HandlesEvent k (read_world side.Client p.ends).client.backend e answer left ctx →
        HasSentAll false (asked_on answer k e) (end_of side.Client (read_world side.Client p.ends)) ctx ×
        ((ctx ≡ (read_world side.Client p.ends).client.backend) ⊎ (client_after {H = H} answer left ≡ Asks left)) }
    ensures follows { (p : PairView H) (f : ClientConverter H) (e : Event) (answer : Result Unit Error) →
        p.ends.spent ≡ false → IsPair p → Keeps p → p.client ≡ Follows f → IsLawfulReason e →
        ReadsEvent (Some (pending.Request e)) p.ends (read_world side.Client p.ends) →
        HasSentAll false (ponged_on answer e) (end_of side.Client (read_world side.Client p.ends))
        (answered_on_event answer e (read_world side.Client p.ends).client.backend) }
    ensures kept { (c new : KeptView) (e : Event) (told now : Option (List ℕ)) (answer : Result Unit Error) →
        HandlesTold c e told now answer new → (new.proxy ≡ c.proxy) × (new.negotiated ≡ c.negotiated) }
{
    ei_shaking::laws::going_on();
    ei_shaking::laws::both_ends();
    ei_shaking::laws::client_messages();
    ei_shaking::laws::server_messages();
    ei_event::heard::events();
    ei_heeding::laws::refusals();
    ei_heeding::laws::events();
    ei_heeding::laws::handled();
}

/// A step of a side keeps what a pair keeps, and refuses nothing but for want of memory while that side shakes hands. A
/// step of the client refuses no event of a steady server for its state.
pub fn stepping<H: Call>()
    ensures server { (p new : PairView H) (before after : Option (List ℕ)) (result : Result Bool Error) →
        p.ends.spent ≡ false → IsPair p → Keeps p → StepsServer p before after result new →
        (new.ends.spent ≡ false → IsPair new → Keeps new) × ShakesFreely side.Server p result }
    ensures client { (p new : PairView H) (told now : Option (List ℕ)) (result : Result Bool Error) →
        p.ends.spent ≡ false → IsPair p → Keeps p → StepsClient H.may_answer p told now result new →
        (new.ends.spent ≡ false → IsPair new → Keeps new) × ShakesFreely side.Client p result × RefusesNone p result }
{
    ei_shaking::laws::going_on();
    ei_shaking::laws::both_ends();
    ei_shaking::laws::client_messages();
    ei_shaking::laws::server_messages();
    ei_event::heard::events();
    ei_heeding::laws::refusals();
    ei_heeding::laws::events();
    ei_heeding::laws::handled();
}

/// A new pair keeps it, one that rests keeps it, and one that is spent does.
pub fn resting<H>()
    ensures begins { (name : List ℕ) (kind : ContextType) (serial : ℕ) (p : PairView H) → is_utf8 name ≡ true →
        serial < 2 ^ 32 → IsNew name kind serial p → Keeps p }
    // where bytes come or go
    ensures moves { (p : PairView H) (w : WorldView) → SameLists p.ends w → p.ends.spent ≡ false → w.spent ≡ false →
        IsPair p → IsPair (with_ends w p) → Keeps p → Keeps (with_ends w p) }
    ensures flushes { (s : Side) (w : WorldView) → SameLists w (flushed_world s w) }
    ensures delivers { (s : Side) (n : ℕ) (result : Result ℕ ReadError) (w v : WorldView) →
        DeliversAt s n result w v → SameLists w v }
    // where what was queued is handed out
    ensures client_queue { (p : PairView H) (f : ClientConverter H) (queue : List EiEvent) → p.client ≡ Follows f →
        Keeps p → Keeps (record p { client = Follows (with_queue queue f) }) }
    ensures server_queue { (p : PairView H) (c : ServerConverter) (queue : List EisRequest) → p.server ≡ Serves c →
        Keeps p → Keeps (record p { server = Serves (record c { queue = queue }) }) }
    ensures spent { (old new : PairView H) → Keeps old → IsSpent old new → Keeps new }
{
    ei_shaking::laws::going_on();
    ei_shaking::laws::both_ends();
    ei_shaking::laws::client_messages();
    ei_shaking::laws::server_messages();
}

/// What may be relied on of a pair that keeps it: both ends settled the same, no handler was called before its time, and
/// the handshakes complete.
pub fn promises<H>()
    ensures same { (p : PairView H) → Keeps p → SettlesTheSame p }
    ensures in_time { (p : PairView H) → Keeps p → CallsInTime p }
    ensures completes { (p : PairView H) → Keeps p → Completes p }
{
    ei_shaking::laws::going_on();
    ei_shaking::laws::both_ends();
    ei_shaking::laws::client_messages();
    ei_shaking::laws::server_messages();
}

/// What a call of a server keeps, and what one of a client does, once the handshake of that side is done.
pub fn doing<H>()
    ensures server { (p : PairView H) (c : ServerConverter) (s : ServerCall) (left : ConnectionView) →
        p.ends.spent ≡ false → IsPair p → Keeps p → p.server ≡ Serves c →
        MayDo (act_of s p.ends) (end_of side.Server p.ends) c.handle → Makes (act_of s p.ends) c.handle left →
        IsPair (server_done_so s c left p) → Keeps (server_done_so s c left p) }
    ensures client { (p : PairView H) (f : ClientConverter H) (m : Record) → p.ends.spent ≡ false → IsPair p → Keeps p →
        p.client ≡ Follows f → IsPair (client_sent_so m p) → Keeps (client_sent_so m p) }
    ensures may_sync { (p : PairView H) (f : ClientConverter H) → p.ends.spent ≡ false → IsPair p → Keeps p →
        p.client ≡ Follows f → p.ends.client.backend.table.next_own < own_limit true →
        HasSentAll false (sync_of p.ends.client.backend.table.next_own f.kept.proxy ∷ [])
        (end_of side.Client p.ends)
        (called false (sync_of p.ends.client.backend.table.next_own f.kept.proxy) p.ends.client.backend) }
    ensures syncs { (p new : PairView H) (f : ClientConverter H) (handler : H) (answer : Option ObjectView) →
        p.ends.spent ≡ false → IsPair p → Keeps p → p.client ≡ Follows f → SyncsWith handler f p answer new →
        IsPair new → Keeps new }
{
    ei_shaking::laws::going_on();
    ei_shaking::laws::both_ends();
    ei_shaking::laws::client_messages();
    ei_shaking::laws::server_messages();
}

/// A step that found no message took all that the other side sent, where nothing is on its way.
pub fn waiting<H: Call>()
    ensures server { (p new : PairView H) (before after : Option (List ℕ)) (result : Result Bool Error) →
        p.ends.spent ≡ false → IsPair p → StepsServer p before after result new → TakesAll side.Server p result }
    ensures client { (p new : PairView H) (told now : Option (List ℕ)) (result : Result Bool Error) →
        p.ends.spent ≡ false → IsPair p → StepsClient H.may_answer p told now result new →
        TakesAll side.Client p result }
{}
