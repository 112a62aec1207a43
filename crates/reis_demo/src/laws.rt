//! The laws of the generated stream. The function does nothing: its clauses are the laws.

ghost use Rattle.std.specs.Prelude.{◌≡◌, ℕ, ◌+◌, ◌*◌, ◌^◌, ◌<◌, ◌≤◌, List, length};
ghost use Rattle.ei_spec.specs.Piece.{stream};
ghost use Rattle.ei_session.specs.Requests.{framed};
ghost use Rattle.ei_session.specs.Served.{session, Disconnect};
ghost use Rattle.reis_demo.specs.Generated.{generated, generated_bytes, demo_setup};
ghost use Rattle.reis_demo.specs.Summary.{demo_session, demo_requests};

/// The pieces joined are the bytes of the messages. So many groups have at most a hundred bytes each, 10000588 bytes at
/// 100000 groups. Whatever the numbers are, the server refuses no message, and its session ends with the disconnect. It
/// hands out at most four requests for each group, those of three inputs and their frame, and three others: at most 400003
/// requests at 100000 groups, and as many whatever the clock reads.
pub fn generated_streams()
    ensures joined { (groups start : ℕ) → stream (generated groups start) ≡ generated_bytes groups start }
    ensures length { (groups start : ℕ) → length (stream (generated groups start)) ≤ 588 + 100 * groups }
    ensures disconnects { (groups start : ℕ) → groups < 2 ^ 32 →
        (session demo_setup (generated groups start)).answer ≡ Disconnect }
    ensures requests { (groups start : ℕ) → groups < 2 ^ 32 → length (demo_requests groups start) ≤ 4 * groups + 3 }
    ensures any_readings { (groups start : ℕ) (readings : List ℕ) →
        length (framed demo_setup readings (demo_session groups start).handled) ≡ length (demo_requests groups start) }
{}
