// Domain and problem, both read whole: the model of what they say and the first state, or the one refusal.
#![tactic(auto)]

ghost use Rattle.std.specs.Prelude.{◌≡◌, true, length};
ghost use Rattle.domain_meaning.specs.Terms.{Scope};
ghost use Rattle.domain_meaning.specs.Domain.{Domain};
ghost use Rattle.domain_meaning.specs.Problem.{sums_fit, read_problem};
ghost use Rattle.domain_terms.specs.Scoped.{Scoped};
ghost use Rattle.domain_indexes.specs.Firsts.{firsts_of};
ghost use Rattle.domain_load.specs.Load.{sizes_of, Models, fixed_of, of_problem, load_of};

use domain_due::Refusal;
use domain_indexes::bases;
use domain_rows::layout;
use domain_terms::scope::Counts;
use text_tokens::runs;

// How many facts and how many numbers there are.
#[derive(Clone, Copy, PartialEq, Eq)]
pub struct Sizes {
    pub facts: usize,
    pub numbers: usize,
}

// What domain and problem say, as numbers.
#[derive(Clone, Copy, PartialEq, Eq)]
pub struct Model {
    // rows of 38 bytes: 17 of types, 64 of objects, 32 of predicates, 16 of functions, 4 of zeros
    pub tables: [u8; layout::TABLES_LENGTH],
    // 32 rows: the actions' names, how many parameters they have, and their types
    pub actions: [u8; 1216],
    // the prepared actions: the number of objects, where each action's lists begin, the lists
    pub rows: [u8; 33153],
    // the goal's prepared list
    pub goal: [u8; 7233],
    pub sizes: Sizes,
    pub counts: Counts,
    // how many actions there are
    pub acting: usize,
}

// What load answers.
#[derive(Clone, Copy, PartialEq, Eq)]
pub enum LoadAnswer {
    Loaded,
    // a refusal of one of the texts: its number and place
    Domain(u8, usize),
    Problem(u8, usize),
}

#[derive(Clone, Copy)]
pub struct Loaded {
    pub model: Model,
    // the first state: a fact is true where its byte is 1, a number undefined where it is -1,000,000,000,001
    pub facts: [u8; 16384],
    pub numbers: [i64; 1024],
    pub answer: LoadAnswer,
}

// What a refused load gives: the same whatever the texts are, but for the answer.
fn fixed(answer: LoadAnswer) -> Loaded
    ensures { result ≡ fixed_of answer }
{
    let counts = Counts {
        types: 0,
        objects: 0,
        predicates: 0,
        functions: 0,
        variables: 0,
        in_action: false,
    };
    let sizes = Sizes {
        facts: 0,
        numbers: 0,
    };
    let model = Model {
        tables: [0u8; layout::TABLES_LENGTH],
        actions: [0u8; 1216],
        rows: [0u8; 33153],
        goal: [0u8; 7233],
        sizes,
        counts,
        acting: 0,
    };
    Loaded {
        model,
        facts: [0u8; 16384],
        numbers: [-1000000000001i64; 1024],
        answer,
    }
}

// The first indexes of predicates and functions, and the number of objects.
fn firsts_of(tables: &[u8], counts: Counts) -> [u16; 49]
    requires { (c : Scope) × Scoped tables.now counts c × (sums_fit c ≡ true) }
    ensures { (c : Scope) → Scoped tables.now counts c → result ≡ firsts_of (length c.objects) c.predicates c.functions }
{
    let objects = counts.objects;
    let mut firsts = [0u16; 49];
    bases::bases_at(
        tables,
        layout::PREDICATES_AT,
        counts.predicates,
        objects,
        &mut firsts,
        0,
    );
    bases::bases_at(
        tables,
        layout::FUNCTIONS_AT,
        counts.functions,
        objects,
        &mut firsts,
        32,
    );
    firsts[48] = objects as u16;
    firsts
}

// How many facts and numbers there are.
fn sizes_of(tables: &[u8], counts: Counts) -> Sizes
    requires { (c : Scope) × Scoped tables.now counts c }
    ensures { (c : Scope) → Scoped tables.now counts c → result ≡ sizes_of (length c.objects) c.predicates c.functions }
{
    let objects = counts.objects;
    Sizes {
        facts: domain_indexes::sum_of(tables, layout::PREDICATES_AT, counts.predicates, objects),
        numbers: domain_indexes::sum_of(tables, layout::FUNCTIONS_AT, counts.functions, objects),
    }
}

// The problem of a domain, whose model, cells and name are given: what it says beside the domain, or its refusal.
fn load_problem<'a>(
    mut model: Model,
    code: &'a [u8],
    starts: &'a [usize],
    name: &[u8],
    problem: &[u8],
) -> Loaded
    requires { (d : Domain) × Models d name.now code.now starts.now model }
    ensures { (d : Domain) → Models d name.now code.now starts.now model
        → result ≡ of_problem d (read_problem problem.now d) }
{
    let mut tables = model.tables;
    let mut counts = model.counts;
    let mut facts = [0u8; 16384];
    let mut numbers = [-1000000000001i64; 1024];
    let mut cells = [0u8; 32768];
    let p = domain_problem_text::problem_at(
        problem,
        &mut tables,
        counts,
        name,
        &mut facts,
        &mut numbers,
        &mut cells,
    );
    let (_, objects) = match p {
        Ok(read) => read,
        Err(Refusal(k, at)) => return fixed(LoadAnswer::Problem(k, at)),
    };
    counts.objects = objects;
    let firsts = firsts_of(&tables, counts);
    let sizes = sizes_of(&tables, counts);
    let mut rows = [0u8; 33153];
    let mut goal = [0u8; 7233];
    domain_preparing::prepare(code, starts, &firsts, model.acting, &mut rows);
    domain_preparing::prepare_goal(&cells, &firsts, &mut goal);
    model.sizes = sizes;
    model.tables = tables;
    model.rows = rows;
    model.goal = goal;
    model.counts = counts;
    Loaded {
        model,
        facts,
        numbers,
        answer: LoadAnswer::Loaded,
    }
}

// Domain and problem: the model and the first state, or the refusal.
pub fn load(domain: &[u8], problem: &[u8]) -> Loaded
    ensures { result ≡ load_of domain.now problem.now }
{
    let mut tables = [0u8; layout::TABLES_LENGTH];
    let mut actions = [0u8; 1216];
    let mut code = [0u8; 32768];
    let mut starts = [0usize; 96];
    let d = domain_domain_text::domain_at(
        domain,
        &mut tables,
        &mut actions,
        &mut code,
        &mut starts,
    );
    let (from, to, counts, acting) = match d {
        Ok(known) => known,
        Err(Refusal(k, at)) => return fixed(LoadAnswer::Domain(k, at)),
    };
    let sizes = Sizes {
        facts: 0,
        numbers: 0,
    };
    let model = Model {
        tables,
        actions,
        rows: [0u8; 33153],
        goal: [0u8; 7233],
        sizes,
        counts,
        acting,
    };
    let name = runs::part_of(domain, from, to);
    load_problem(model, &code, &starts, name, problem)
}
