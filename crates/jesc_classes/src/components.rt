//! Strongly connected components of the supertypes, by Tarjan's algorithm.

ghost use Rattle.std.specs.Prelude.{◌<◌, ◌^◌, length};

use jesc_text::{List, OutOfMemory};
use std::alloc::Global;

/// What a search knows of a class.
#[derive(Clone, Copy, Drop)]
enum State {
    /// The search hasn't come to it.
    New,
    /// The search came to it as the one of that number, and its component isn't complete.
    Open(u32),
    /// Its component is complete, and is the one of that number.
    Complete(u32),
}

/// A class on the way from where the search began to where it is.
#[derive(Clone, Copy, Drop)]
struct Step {
    class: u32,
    number: u32,
    /// The least number of an open class that was found to be above.
    low: u32,
    /// How many of its supertypes the search has taken.
    taken: usize,
}

/// A search for components, which goes up from one class after the other.
#[derive(Drop)]
struct Search {
    states: Vec<State>,
    path: Vec<Step>,
    /// The open classes, in the order in which the search came to them.
    open: Vec<u32>,
    entered: u32,
    completed: u32,
}

/// Of each class the number of its component, which is greater than those of the components above it.
///
/// The numbers are not proved to be so: whoever needs that tests it.
pub fn component_numbers(alloc: Global, graph: &[List<u32>]) -> Result<List<u32>, OutOfMemory>
    requires { length graph.now < 2 ^ 32 }
{
    let mut search = Search::new(alloc, graph.len())?;
    let most = steps(graph);
    for class in 0..graph.len() as u32 {
        search.begin(class)?;
        search.run(graph, most)?;
    }
    search.numbers(alloc)
}

/// How many steps all searches take at most: one for each class, and one for each supertype that its heading names.
fn steps(graph: &[List<u32>]) -> usize {
    let mut count = 0usize;
    for supertypes in graph {
        count = count.saturating_add(supertypes.len()).saturating_add(1);
    }
    count
}

impl Search {
    /// A search that has come to none of so many classes.
    fn new(alloc: Global, count: usize) -> Result<Search, OutOfMemory> {
        let Ok(states) = vec![in alloc; State::New; count] else {
            return Err(OutOfMemory);
        };
        Ok(Search {
            states,
            path: Vec::new(alloc),
            open: Vec::new(alloc),
            entered: 0,
            completed: 0,
        })
    }

    /// Steps until the way is empty.
    fn run(&mut self, graph: &[List<u32>], most: usize) -> Result<(), OutOfMemory> {
        for _ in 0..most {
            let Some(step) = self.path.pop() else {
                return Ok(());
            };
            self.advance(graph, step)?;
        }
        Ok(())
    }

    /// Goes on to the next supertype of the last class on the way, or leaves the class where there is none.
    fn advance(&mut self, graph: &[List<u32>], step: Step) -> Result<(), OutOfMemory> {
        let Some(above) = supertype(graph, step) else {
            self.leave(step);
            return Ok(());
        };
        let step = Step {
            taken: step.taken.saturating_add(1),
            ..step
        };
        match self.state(above) {
            State::New => {
                self.go(step)?;
                self.enter(above)
            }
            State::Open(number) => self.go(Step {
                low: step.low.min(number),
                ..step
            }),
            State::Complete(_) => self.go(step),
        }
    }

    /// Begins at the class if no search has come to it.
    fn begin(&mut self, class: u32) -> Result<(), OutOfMemory> {
        match self.state(class) {
            State::New => self.enter(class),
            State::Open(_) => Ok(()),
            State::Complete(_) => Ok(()),
        }
    }

    /// Goes up to a class for the first time.
    fn enter(&mut self, class: u32) -> Result<(), OutOfMemory> {
        let number = self.entered;
        self.entered = number.saturating_add(1);
        set(&mut self.states, class, State::Open(number));
        let Ok(_) = self.open.push(class) else {
            return Err(OutOfMemory);
        };
        self.go(Step {
            class,
            number,
            low: number,
            taken: 0,
        })
    }

    /// Makes that the last class on the way.
    fn go(&mut self, step: Step) -> Result<(), OutOfMemory> {
        match self.path.push(step) {
            Ok(_) => Ok(()),
            Err(_) => Err(OutOfMemory),
        }
    }

    /// Tells the class before what is above, and completes the component where this class is the first one of it.
    fn leave(&mut self, step: Step) {
        if let Some(before) = self.path.last_mut() {
            before.low = before.low.min(step.low);
        }
        if step.low == step.number {
            self.complete(step.class);
        }
    }

    /// The classes that are open from this one on are a component.
    fn complete(&mut self, first: u32) {
        let number = self.completed;
        self.completed = number.saturating_add(1);
        while let Some(class) = self.open.pop() {
            set(&mut self.states, class, State::Complete(number));
            if class == first {
                return;
            }
        }
    }

    /// What is known of a class.
    fn state(&self, class: u32) -> State {
        match self.states.get(class as usize) {
            Some(state) => *state,
            None => State::New,
        }
    }

    /// The number of each class's component.
    fn numbers(self, alloc: Global) -> Result<List<u32>, OutOfMemory> {
        let mut numbers = List::new(alloc);
        for state in &self.states {
            numbers.push(component(*state))?;
        }
        Ok(numbers)
    }
}

/// Keeps what is known of a class.
fn set(states: &mut Vec<State>, class: u32, state: State) {
    if let Some(place) = states.get_mut(class as usize) {
        *place = state;
    }
}

/// The number of the component of a class; 0 where it isn't known.
fn component(state: State) -> u32 {
    match state {
        State::Complete(number) => number,
        State::New => 0,
        State::Open(_) => 0,
    }
}

/// The next supertype to be taken.
fn supertype(graph: &[List<u32>], step: Step) -> Option<u32> {
    let supertypes = graph.get(step.class as usize)?;
    supertypes.as_slice().get(step.taken).copied()
}
