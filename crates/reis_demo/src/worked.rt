//! The stream of one group, as the definitions have it. Each function does nothing: its clauses are what it computes to.

ghost use Rattle.std.specs.Prelude.{◌≡◌, ◌++◌, length, count_by, codes, Ok};
ghost use Rattle.ei_spec.specs.Message.{all_bytes};
ghost use Rattle.ei_spec.specs.Piece.{stream};
ghost use Rattle.ei_session.specs.Events.{replies};
ghost use Rattle.ei_session.specs.Served.{Disconnect};
ghost use Rattle.ei_serve.specs.declared.session.Ended.TheVariants as ended;
ghost use Rattle.reis_report.specs.Report.{line_of};
ghost use Rattle.reis_demo.specs.Generated.{drawn, chooser, group_size, opening, generated, demo_setup};
ghost use Rattle.reis_demo.specs.Summary.{is_input, demo_session, demo_requests, six_lines};

/// One group of the numbers after 0.
pub fn one_group()
    ensures first_draw { drawn 0 ≡ 1013904223 }
    ensures chooser { chooser 1013904223 ≡ 15470 }
    ensures size { group_size 1013904223 ≡ 3 }
    ensures opening { length (all_bytes opening) ≡ 572 }
    ensures bytes { length (stream (generated 1 0)) ≡ 688 }
    ensures pieces { length (generated 1 0) ≡ 1 }
    ensures answer { (demo_session 1 0).answer ≡ Disconnect }
    ensures requests { length (demo_requests 1 0) ≡ 7 }
    ensures inputs { count_by is_input (demo_requests 1 0) ≡ 3 }
    ensures bytes_out { length (all_bytes (replies demo_setup (demo_session 1 0).handled)) ≡ 1224 }
    ensures lines { six_lines 1 3 7 688 1224 (Ok ended.Disconnect) ≡
        line_of (codes "groups 1") ++ (line_of (codes "inputs 3") ++
        (line_of (codes "requests 7") ++ (line_of (codes "bytes in 688")
        ++ (line_of (codes "bytes out 1224") ++ line_of (codes "end disconnect"))))) }
{}
