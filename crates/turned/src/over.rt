// A plan turned over.
ghost use Rattle.card.specs.PlanPairs.{pairs_of};
ghost use Rattle.turned.specs.TurnedOver.{TurnedOver, CarriedAlike};

use card::plan::Plan;

// The plan that takes each output back to its input. Every plan has one.
pub fn turned_over(plan: &Plan) -> Plan
    ensures inverse { TurnedOver (pairs_of plan.now) (pairs_of result) }
    ensures carries { CarriedAlike (pairs_of plan.now) (pairs_of result) }
{
    let lines = plan.lines();
    let mut over = Plan::idle(lines).unwrap();
    for input in 0..lines {
        if let Some(output) = plan.output(input) {
            over.patch(output, input).unwrap();
        }
    }
    over
}
