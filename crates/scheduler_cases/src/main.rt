// Runs cases 13 and 14, cases with a deadline before the next arrival and ticks that several would get, and asks for each refusal
// of a step, each clause of refusal 6 among them.
#![tactic(auto)]

mod bounds;
mod cases;
mod made;
mod refusals;
mod said;

fn main(rt: HostRuntime) {
    let out = rt.stdout();
    let over = cases::case_13(out);
    cases::case_14(out);
    cases::deadlines(out);
    cases::choices(out);
    bounds::table_clauses(out);
    bounds::place_clauses(out);
    bounds::row_clauses(out);
    bounds::late_clauses(out);
    refusals::later_refusals(out, over);
    refusals::edges(out);
}
