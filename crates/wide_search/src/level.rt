// A level: costs of 64 bits, and what the search over these says.
use c_calls::lists::{Form, Info, Input, solve_input};
use std::alloc::{AllocError, Global};

const BEST: i32 = 0;

const HALL: i32 = 1;

const MEMORY: i32 = 9;

/// The pairs that the costs of a level belong to; all pairs where none are listed.
#[derive(Clone, Copy)]
pub struct Level<'a> {
    pub form: Form,
    pub persons: &'a [u32],
    pub objects: &'a [u32],
    pub costs: &'a [i64],
}

/// The objects and the prices of a level; or persons, and fewer objects, if there is no plan.
#[derive(Drop)]
pub struct Solved {
    pub objects: Vec<u32>,
    pub persons: Vec<u32>,
    pub prices: Vec<i64>,
}

/// What a level came to.
#[derive(Drop)]
pub enum Answer {
    Plan(Solved),
    Hall(Solved),
    Lost,
}

fn no_info() -> Info {
    Info {
        total: 0,
        place: 0,
        persons: 0,
        objects: 0,
        person: 0,
        object: 0,
    }
}

impl Solved {
    fn new(alloc: Global, n: usize, m: usize) -> Result<Solved, AllocError> {
        Ok(Solved {
            objects: vec![in alloc; 0u32; n]?,
            persons: vec![in alloc; 0u32; n]?,
            prices: vec![in alloc; 0i64; m]?,
        })
    }
}

/// Solves a level of `n` persons and `m` objects; the least sum is best.
pub fn solve_level(
    alloc: Global,
    n: usize,
    m: usize,
    level: Level<'_>,
) -> Result<Answer, AllocError> {
    let mut solved = Solved::new(alloc, n, m)?;
    let by_person = [solved.objects.len(), solved.persons.len()];
    let by_object = [solved.prices.len()];
    let input = Input {
        form: level.form,
        sense: 0,
        n,
        m,
        by_person: &by_person,
        by_object: &by_object,
        persons: level.persons,
        objects: level.objects,
        costs: level.costs,
        first: &[],
    };
    let mut info = no_info();
    let code = solve_input(
        alloc,
        &input,
        solved.objects.as_mut_slice(),
        solved.persons.as_mut_slice(),
        solved.prices.as_mut_slice(),
        &mut info,
    );
    match code {
        BEST => Ok(Answer::Plan(solved)),
        HALL => {
            solved.objects.truncate(info.objects as usize);
            solved.persons.truncate(info.persons as usize);
            Ok(Answer::Hall(solved))
        }
        MEMORY => Err(AllocError),
        _ => Ok(Answer::Lost),
    }
}
