// What each refusal number means, in a technician's words, true to the table of RULES 7.
use program_limits::Limit;

// From 14 on only plans are refused so.
pub fn of_number(number: u8) -> &'static str {
    match number {
        1 => "the text is longer than 32,768 bytes",
        2 => "a byte that is not allowed",
        3 => "a word or sign that is not allowed here",
        4 => "the text, or the plan line, ends in the middle",
        5 => "a name longer than 32 bytes",
        6 => "a number that is malformed, too large or too fine",
        7 => "a name, or a number in init, that is given twice",
        8 => "a name that is not declared",
        9 => "too many or too few arguments",
        10 => "an argument of the wrong type",
        11 => "a form of PDDL that this checker does not carry",
        12 => "one more, or one deeper, than the limits allow",
        13 => "the problem is for another domain",
        14 => "a plan line longer than 256 bytes",
        15 => "a plan goes on after its 1,000,000th line",
        16 => "a step that starts before the step above it",
        17 => "the duration in brackets is missing, not wanted or 0",
        18 => "more than 64 starts and ends wait for their time",
        _ => "a call out of turn",
    }
}

// The limit that a refusal 12 is about.
pub fn of_limit(limit: Limit) -> &'static str {
    match limit {
        Limit::Types => "a domain has at most 16 types",
        Limit::Objects => "there are at most 64 objects, constants among them",
        Limit::Predicates => "a domain has at most 32 predicates",
        Limit::PredicateArguments => "a predicate has at most 3 arguments",
        Limit::Functions => "a domain has at most 16 functions",
        Limit::FunctionArguments => "a function has at most 2 arguments",
        Limit::Actions => "a domain has at most 32 actions",
        Limit::Parameters => "an action has at most 4 parameters",
        Limit::Conditions => "an action has at most 32 single conditions",
        Limit::Effects => "an action has at most 16 effects",
        Limit::GoalConditions => "the goal has at most 64 single conditions",
        Limit::Expression => "an expression has at most 16 operators and operands",
        Limit::Brackets => "brackets are at most 16 deep",
        Limit::Facts => "predicates and objects make at most 16,384 facts",
        Limit::Numbers => "functions and objects make at most 1,024 numbers",
    }
}
