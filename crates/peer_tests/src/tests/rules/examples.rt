use crate::tests::steps::addresses::A1;
use crate::tests::steps::scene::{NOBODY, Scene, Setting};
use govern_rules::{
    BigRule, Link, LinkRows, Order, OrderList, View, rule_big, rule_g2, rule_g3, rule_g4, rule_g5,
    rule_g6, rule_g7, rule_g8, rule_g9,
};
use net_base::{Addr, BigTargets, OutOfMemory, Settings, Targets};
use pick_policy::{Picker, RankedPicker};
use std::alloc::Global;
use std::process::Abort;

/// Under this word 127.0.0.1:3003 has the least score of all, and 127.0.0.1:3002 the greatest.
pub const WRAPPING: u64 = 18_446_604_435_732_755_525;

pub enum Rule {
    G2,
    G3,
    G4,
    G5,
    G6,
    G7,
    G8,
    G9,
    Big(BigRule),
}

/// What a rule gives where so many of its class are to be known, established and active.
pub struct Case(pub Rule, pub [u64; 3], pub &'static [Order]);

/// A scene with links, and what rules give in it.
#[derive(Drop)]
pub struct Example {
    pub setting: Setting,
    pub links: &'static [Link],
    pub moment: u64,
    pub word: u64,
    /// How many answers may be owed.
    pub shares: u64,
    pub cases: &'static [Case],
}

pub const EXAMPLE: Example = Example {
    setting: NOBODY,
    links: &[],
    moment: 4999,
    word: 0,
    shares: 2,
    cases: &[],
};

#[derive(Drop)]
struct Pickers<'a> {
    plain: &'a Picker,
    ranked: &'a RankedPicker,
}

fn targets([known, established, active]: [u64; 3]) -> Targets {
    Targets {
        root: 0,
        known,
        established,
        active,
    }
}

fn big_targets([known, established, active]: [u64; 3]) -> BigTargets {
    BigTargets {
        known,
        established,
        active,
    }
}

fn view<'a>(example: &Example, links: &'a LinkRows, case: &Case) -> View<'a> {
    let (ordinary, big) = match case.0 {
        Rule::Big(_) => ([0, 0, 0], case.1),
        _ => (case.1, [0, 0, 0]),
    };
    View {
        moment: example.moment,
        word: example.word,
        settings: Settings {
            shares: example.shares,
            ..Settings::usual(A1)
        },
        targets: targets(ordinary),
        big: big_targets(big),
        links: links.list(),
    }
}

fn orders(
    alloc: Global,
    rule: &Rule,
    view: &View,
    scene: &Scene,
    pickers: &Pickers,
) -> Result<OrderList, OutOfMemory> {
    let Scene {
        book,
        groups,
        roots,
    } = scene;
    let Pickers { plain, ranked } = pickers;
    match rule {
        Rule::G2 => rule_g2(alloc, view, book, groups, roots, plain),
        Rule::G3 => rule_g3(alloc, view, book, groups, roots, plain),
        Rule::G4 => rule_g4(alloc, view, book, groups, roots, plain),
        Rule::G5 => rule_g5(alloc, view, book, groups, roots, plain),
        Rule::G6 => rule_g6(alloc, view, book, groups, roots, plain),
        Rule::G7 => rule_g7(alloc, view, book, groups, roots, plain),
        Rule::G8 => rule_g8(alloc, view, book, groups, roots, plain),
        Rule::G9 => rule_g9(alloc, view, book, groups, roots, plain),
        Rule::Big(rule) => rule_big(alloc, *rule, view, book, ranked),
    }
}

fn gives(
    alloc: Global,
    view: &View,
    scene: &Scene,
    pickers: &Pickers,
    case: &Case,
) -> Result<bool, OutOfMemory> {
    let orders = orders(alloc, &case.0, view, scene, pickers)?;
    Ok(orders.as_slice() == case.2)
}

fn gives_all(
    rt: &impl Abort,
    alloc: Global,
    example: &Example,
    links: &LinkRows,
    scene: &Scene,
    pickers: &Pickers,
) -> Result<(), OutOfMemory> {
    for (number, case) in example.cases.iter().enumerate() {
        let view = view(example, links, case);
        assert!(rt;
            gives(alloc, &view, scene, pickers, case)?,
            "in case {number}"
        );
    }
    Ok(())
}

fn rows(alloc: Global, links: &[Link]) -> Result<LinkRows, OutOfMemory> {
    LinkRows::from_vec(alloc, Vec::from_slice(alloc, links)?)
}

fn hold_in(
    rt: &impl Abort,
    alloc: Global,
    scene: &mut Scene,
    example: &Example,
    pickers: &Pickers,
) -> Result<(), OutOfMemory> {
    scene.set(rt, alloc, &example.setting)?;
    let links = rows(alloc, example.links)?;
    gives_all(rt, alloc, example, &links, scene, pickers)
}

fn hold(
    rt: &impl Abort,
    alloc: Global,
    example: &Example,
    pickers: &Pickers,
) -> Result<(), OutOfMemory> {
    let mut scene = Scene::new(alloc);
    hold_in(rt, alloc, &mut scene, example, pickers)
}

fn hold_all(
    rt: &impl Abort,
    alloc: Global,
    examples: &[Example],
    pickers: &Pickers,
) -> Result<(), OutOfMemory> {
    for example in examples {
        hold(rt, alloc, example, pickers)?;
    }
    Ok(())
}

fn run_with(
    rt: &impl Abort,
    alloc: Global,
    examples: &[Example],
    plain: &Picker,
) -> Result<(), OutOfMemory> {
    let ranked = RankedPicker::new(Box::new(alloc, |addr: Addr, failures: u64, word: u64| {
        failures.min(65_535) * 281_474_976_710_656
            + addr.key().wrapping_add(word) % 281_474_976_710_656
    })?);
    let pickers = Pickers {
        plain,
        ranked: &ranked,
    };
    hold_all(rt, alloc, examples, &pickers)
}

/// In each example the rules give what they are to give.
pub fn run(rt: &impl Abort, alloc: Global, examples: &[Example]) -> Result<(), OutOfMemory> {
    let plain = Picker::new(Box::new(alloc, |addr: Addr, word: u64| {
        addr.key().wrapping_add(word)
    })?);
    run_with(rt, alloc, examples, &plain)
}
