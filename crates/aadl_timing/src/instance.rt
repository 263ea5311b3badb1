//! The components of an instance, by the paths that lead to them.

ghost use Rattle.std.specs.Prelude.{◌≡◌, [], option_copied, IfOk};
ghost use Rattle.aadl_domains.specs.Components.{implementation_in};
ghost use Rattle.aadl_timing.specs.Located.{step_of, step_at, steps_from, part_at, implementation_of, declared_of, component_in, component_at};

use aadl_names::{ClassRow, Component, Held, PartRow, Resolved, Step, Tables, at_row};
use aadl_tree::{ComponentType, Implementation, Subcomponent};
use hw_text::{NoMemory, Rows};
use std::alloc::Global;

/// What a model declares, and what its references lead to: all that its instance consists of.
#[derive(Clone, Copy)]
pub struct Instance<'a> {
    pub tables: &'a Tables<'a>,
    pub resolved: &'a Resolved,
}

impl<'a> Instance<'a> {
    /// The component to which a path leads: the rows of the subcomponents on the way to it, from outside.
    pub fn component_at(
        &self,
        alloc: Global,
        path: &[usize],
    ) -> Result<Option<Component<'a>>, NoMemory>
        ensures { IfOk result (λ component. component ≡ component_at self.now.tables.now self.now.resolved.now path.now) }
    {
        let Some(&last) = path.last() else {
            return Ok(None);
        };
        match self.steps(alloc, path)? {
            Some(steps) => Ok(self.component_in(last, steps)),
            None => Ok(None),
        }
    }

    /// The component of a subcomponent, to which these steps lead.
    pub fn component_in(&self, row: usize, steps: Rows<Step<'a>>) -> Option<Component<'a>>
        ensures { result ≡ component_in self.now.tables.now self.now.resolved.now row steps.entry }
    {
        let subcomponent = self.part_at(row)?;
        let class = at_row(self.resolved.classes.rows(), row)?;
        let declared = self.declared_of(class)?;
        let implementation = self.implementation_of(class);
        Some(Component {
            steps,
            subcomponent: Held::new(subcomponent),
            implementation,
            declared: Held::new(declared),
        })
    }

    fn steps(&self, alloc: Global, path: &[usize]) -> Result<Option<Rows<Step<'a>>>, NoMemory>
        ensures { IfOk result (λ steps. steps ≡ steps_from self.now.tables.now [] path.now) }
    {
        let mut steps = Rows::new(alloc);
        for &row in path {
            let Some(step) = self.step_at(row) else {
                return Ok(None);
            };
            steps.push(step)?;
        }
        Ok(Some(steps))
    }

    fn step_at(&self, row: usize) -> Option<Step<'a>>
        ensures { result ≡ step_at self.now.tables.now row }
    {
        self.step_of(self.tables.subcomponents.rows().get(row)?)
    }

    /// The implementation in which a subcomponent stands, and its name.
    fn step_of(&self, row: &PartRow<'a, Subcomponent>) -> Option<Step<'a>>
        ensures { result ≡ step_of self.now.tables.now row.now }
    {
        let within = self.tables.implementations.rows().get(row.owner)?;
        Some(Step {
            within: Held::new(within.get()),
            name: Held::new(&row.part.get().name.name),
        })
    }

    pub fn part_at(&self, row: usize) -> Option<&'a Subcomponent>
        ensures { option_copied result ≡ part_at self.now.tables.now row }
    {
        let row = self.tables.subcomponents.rows().get(row)?;
        Some(row.part.get())
    }

    fn implementation_of(&self, class: ClassRow) -> Option<Held<'a, Implementation>>
        ensures { result ≡ implementation_of self.now.tables.now class }
    {
        let number = implementation_in(class)?;
        let found = self.tables.implementations.rows().get(number)?;
        Some(Held::new(found.get()))
    }

    fn declared_of(&self, class: ClassRow) -> Option<&'a ComponentType>
        ensures { option_copied result ≡ declared_of self.now.tables.now self.now.resolved.now class }
    {
        let number = self.resolved.type_row(class)?;
        let found = self.tables.types.rows().get(number)?;
        Some(found.get())
    }
}

pub fn implementation_in(class: ClassRow) -> Option<usize>
    ensures { result ≡ implementation_in class }
{
    match class {
        ClassRow::Base | ClassRow::Type(_) => None,
        ClassRow::Implementation(number) => Some(number),
    }
}
