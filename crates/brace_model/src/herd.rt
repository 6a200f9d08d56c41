ghost use Rattle.std.specs.Prelude.{◌≡◌, ◌<◌, ◌-◌, ◌^◌, ◌++◌, ◌∷◌, [], Some, length, map, min, slice_get, slice_index_or, IfOk, MatchBool, OnOk};
ghost use Rattle.std.specs.List.{All};
ghost use Rattle.std.specs.List.Sorted.{IsPermutation, IsNonDecreasingBy};
ghost use Rattle.brace_model.specs.declared.world.Agent.{Agent};
ghost use Rattle.brace_model.specs.World.{RisesById, least_next, number, value_at};
ghost use Rattle.brace_model.specs.Words.{agent_with};

use crate::heads::{Head, picked, shifted};
use crate::shared::{Shared, all_again};
use crate::stored::stored;
use crate::values::{read, typed, types_into, words_into};
use crate::{Agent, Ty, Value, number};
use brace_num::{List, NoMemory};
use std::alloc::Global;
use std::marker::Model;

/// Agents in a few vectors: of each its id and where its words lie, in a block of its class.
/// Contracts see the list of the agents.
///
/// An agent takes 16 bytes and 8 for each of its values. Herds of the same agents may have their
/// words in common.
#[derive(Debug, Drop)]
pub struct Herd {
    alloc: Global,
    blocks: Vec<Shared>,
    heads: Vec<Head>,
    /// For how many words the first block is to have room.
    room: usize,
}

impl Model for Herd {
    ghost use Rattle.std.specs.Prelude.{List};
    ghost use Rattle.brace_model.specs.declared.world.Agent.{Agent};
    ghost use Rattle.brace_model.specs.inner.Packed.{agents_of, AreWithin};

    ghost Value = { List Agent };

    ghost view = { λ herd. agents_of herd.blocks.items herd.heads.items };

    ghost invariant = { λ herd. AreWithin herd.blocks.items herd.heads.items };
}

impl Herd {
    /// No agents. It takes no memory.
    pub fn new(alloc: Global) -> Herd
        ensures { result ≡ [] }
    {
        Herd {
            alloc,
            blocks: Vec::new(alloc),
            heads: Vec::new(alloc),
            room: 0,
        }
    }

    /// No agents, with room for so many with so many values.
    pub fn with_room(alloc: Global, agents: usize, values: usize) -> Result<Herd, NoMemory>
        ensures { IfOk result (λ herd. herd ≡ []) }
    {
        Ok(Herd {
            alloc,
            blocks: Vec::new(alloc),
            heads: Vec::with_capacity(alloc, agents)?,
            room: values,
        })
    }

    /// The agents of a list.
    pub fn of(alloc: Global, agents: &[Agent]) -> Result<Herd, NoMemory>
        ensures { IfOk result (λ herd. herd ≡ agents.now) }
    {
        let mut herd = Herd::new(alloc);
        let mut types = Vec::new(alloc);
        let mut words = Vec::new(alloc);
        for agent in agents {
            herd.add(agent, &mut types, &mut words)?;
        }
        Ok(herd)
    }

    /// A vector without values, for `agent`. It takes no memory.
    pub fn no_values(&self) -> Vec<Value> {
        Vec::new(self.alloc)
    }

    /// How many agents there are.
    pub fn len(&self) -> usize
        ensures { result ≡ length self.now }
    {
        self.heads.len()
    }

    /// The class of the agent at a place, by its number.
    pub fn class(&self, place: usize) -> u32
        requires { place < length self.now }
        ensures { (d : Agent) → result ≡ (slice_index_or self.now place d).class }
    {
        let head = self.heads[place];
        let shared = &self.blocks[head.block as usize];
        shared.block().class
    }

    /// The id of the agent at a place.
    pub fn id(&self, place: usize) -> u64
        requires { place < length self.now }
        ensures { (d : Agent) → result ≡ (slice_index_or self.now place d).id }
    {
        self.heads[place].id
    }

    /// How many states the agent at a place has.
    pub fn states(&self, place: usize) -> usize
        requires { place < length self.now }
        ensures { (d : Agent) → result ≡ length (slice_index_or self.now place d).states }
    {
        let head = self.heads[place];
        let shared = &self.blocks[head.block as usize];
        shared.block().types.as_slice().len()
    }

    /// Whether each agent's id is above that of the agent before it.
    pub fn rises(&self) -> bool
        ensures { MatchBool result (RisesById self.now) (RisesById self.now → ⊥) }
    {
        for i in 1..self.len() {
            if self.id(i - 1) >= self.id(i) {
                return false;
            }
        }
        true
    }

    /// Whether each agent's id is below a number.
    pub fn are_below(&self, next: u64) -> bool
        ensures { MatchBool result
            (All (λ a. a.id < next) self.now) (All (λ a. a.id < next) self.now → ⊥) }
    {
        for place in 0..self.len() {
            if self.id(place) >= next {
                return false;
            }
        }
        true
    }

    /// One more than the last id, or 0 where there is none; at most the greatest number.
    pub fn least_next(&self) -> u64
        ensures { result ≡ min (least_next self.now) (2 ^ 64 - 1) }
    {
        match self.len() {
            0 => 0,
            count => self.id(count - 1).saturating_add(1),
        }
    }

    /// The number of a state of the agent at a place; 0 where it has no such state.
    pub fn number(&self, place: usize, state: u32) -> i64
        requires { place < length self.now }
        ensures { (d : Agent)
            → result ≡ number (value_at (slice_index_or self.now place d).states state) }
    {
        self.number_at(place, state as usize)
    }

    /// The same where states are counted as places are.
    pub fn number_at(&self, place: usize, state: usize) -> i64
        requires { place < length self.now }
        ensures { (d : Agent)
            → result ≡ number (value_at (slice_index_or self.now place d).states state) }
    {
        let head = self.heads[place];
        let shared = &self.blocks[head.block as usize];
        let block = shared.block();
        let types = block.types.as_slice();
        if state < types.len() {
            number(typed(
                types[state],
                block.words.as_slice()[head.start as usize + state],
            ))
        } else {
            0
        }
    }

    /// The agent at a place, with its states in a vector that is not needed any more.
    pub fn agent(&self, place: usize, values: Vec<Value>) -> Result<Agent, NoMemory>
        requires { place < length self.now }
        ensures { IfOk result (λ agent. slice_get self.now place ≡ Some agent) }
    {
        let head = self.heads[place];
        let shared = &self.blocks[head.block as usize];
        let block = shared.block();
        let mut values = values;
        let words = &block.words.as_slice()[head.start as usize..];
        read(block.types.as_slice(), words, &mut values)?;
        Ok(Agent {
            class: block.class,
            id: head.id,
            states: List::from_vec(values),
        })
    }

    /// The agents, in their order.
    pub fn agents(&self) -> Result<Vec<Agent>, NoMemory>
        ensures { IfOk result (λ agents. agents.items ≡ self.now) }
    {
        let mut agents = Vec::with_capacity(self.alloc, self.len())?;
        for place in 0..self.len() {
            agents.push(self.agent(place, Vec::new(self.alloc))?)?;
        }
        Ok(agents)
    }

    /// One more agent behind the others, given by its class, its id, the types of its states and
    /// their words: millionths of a fixed number, and 0 of a flag that is not set.
    pub fn push(&mut self, class: u32, id: u64, types: &[Ty], words: &[i64]) -> Result<(), NoMemory>
        ensures ok { OnOk result
            (self.new ≡ self.old ++ agent_with class id types.now words.now ∷ []) }
    {
        if words.len() < types.len() {
            return Err(NoMemory);
        }
        let spot = stored(self.alloc, &mut self.blocks, class, types, words, self.room)?;
        self.room = 0;
        self.heads.push(Head {
            id,
            block: spot.block,
            start: spot.start,
        })?;
        Ok(())
    }

    /// One more agent, by way of vectors that are used for each.
    fn add(
        &mut self,
        agent: &Agent,
        types: &mut Vec<Ty>,
        words: &mut Vec<i64>,
    ) -> Result<(), NoMemory>
        ensures { OnOk result (self.new ≡ self.old ++ agent.now ∷ []) }
    {
        types_into(agent.states.as_slice(), types)?;
        words_into(agent.states.as_slice(), words)?;
        self.push(agent.class, agent.id, types, words)
    }

    /// One more agent: that at a place of another herd.
    pub fn take(&mut self, other: &Herd, place: usize) -> Result<(), NoMemory>
        requires { place < length other.now }
        ensures { OnOk result ((d : Agent)
            → self.new ≡ self.old ++ slice_index_or other.now place d ∷ []) }
    {
        let head = other.heads[place];
        let shared = &other.blocks[head.block as usize];
        let block = shared.block();
        let types = block.types.as_slice();
        let words = &block.words.as_slice()[head.start as usize..];
        self.push(block.class, head.id, types, &words[..types.len()])
    }

    /// Those of another herd, behind the others. Their words stay where they are.
    pub fn append(&mut self, other: Herd) -> Result<(), NoMemory>
        ensures { OnOk result (self.new ≡ self.old ++ other) }
    {
        let Herd {
            mut blocks,
            heads,
            ..
        } = other;
        let Ok(first) = u32::try_from(self.blocks.len()) else {
            return Err(NoMemory);
        };
        let mut heads = shifted(self.alloc, heads.as_slice(), first)?;
        self.blocks.append(&mut blocks)?;
        self.heads.append(&mut heads)?;
        Ok(())
    }

    /// A herd of the same agents, whose words are where they are.
    pub fn copy(&self, alloc: Global) -> Result<Herd, NoMemory>
        ensures { IfOk result (λ copy. copy ≡ self.now) }
    {
        let blocks = all_again(alloc, &self.blocks)?;
        let heads = shifted(alloc, &self.heads, 0)?;
        Ok(Herd {
            alloc,
            blocks,
            heads,
            room: 0,
        })
    }

    /// A herd of the agents at some places, whose words are where they are; `NoMemory` where there
    /// is no such place.
    pub fn picked(&self, alloc: Global, places: &[u32]) -> Result<Herd, NoMemory>
        ensures { IfOk result (λ herd. (d : Agent)
            → herd ≡ map (λ place. slice_index_or self.now place d) places.now) }
    {
        let blocks = all_again(alloc, &self.blocks)?;
        let heads = picked(alloc, &self.heads, places)?;
        Ok(Herd {
            alloc,
            blocks,
            heads,
            room: 0,
        })
    }

    /// Puts the agents in an order in which ids do not fall. It takes no memory.
    pub fn sort(&mut self)
        ensures same { IsPermutation self.old self.new }
        ensures in_order { IsNonDecreasingBy (λ a. a.id) self.new }
    {
        self.heads.sort_unstable_by_key(|head| head.id);
    }
}
