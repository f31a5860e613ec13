//! The metadata pairs of a scene's grids, and the commands on them.

ghost use Rattle.std.specs.Prelude.{◌≡◌};
ghost use Rattle.std.specs.Option.{option_map};
ghost use Rattle.vdb_scene.specs.Doing.{CarriesOut, Does, LeavesTrees, answer_of, result_of};
ghost use Rattle.vdb_scene.specs.Grids.{scene_of};
ghost use Rattle.vdb_scene.specs.Scene.{grid_at};
ghost use Rattle.vdb_scene.specs.declared.command.Command.TheVariants as commands;

use crate::{Answer, MetaText, Metas, Name, Refusal, Scene};

impl Scene {
    /// Returns the metadata pairs of the grid of a name: `None` if no grid has the name.
    pub fn metas(&self, name: &Name) -> Option<&Metas>
        ensures { option_map (λ pairs. pairs.now) result ≡ option_map (λ g. g.pairs) (grid_at (scene_of self.now) name.now) }
    {
        match self.entry(name) {
            Some(entry) => Some(&entry.metas),
            None => None,
        }
    }

    /// Sets the text of a key of a grid's metadata. An existing text is replaced.
    ///
    /// Fails with `NoGrid` if no grid has the name, with `MetaLimit` if the key is new and the grid has `META_LIMIT` pairs, and
    /// with `Memory` if an allocation for a new key fails, in this order. An error leaves the scene unchanged.
    pub fn set_meta(&mut self, name: &Name, key: Name, text: MetaText) -> Result<(), Refusal>
        ensures step { Does (scene_of self.old) (commands.Meta name.now key text) result (scene_of self.new) }
        ensures trees { LeavesTrees (commands.Meta name.now key text) (result_of result) self.old self.new }
    {
        match self.grids.get_mut(name) {
            Some(entry) => entry.metas.set(key, text),
            None => Err(Refusal::NoGrid),
        }
    }

    /// Removes the pair of a key from a grid's metadata, if it exists. Allocates nothing. Fails with `NoGrid` if no grid has the
    /// name.
    pub fn remove_meta(&mut self, name: &Name, key: &Name) -> Result<(), Refusal>
        ensures step { Does (scene_of self.old) (commands.Unmeta name.now key.now) result (scene_of self.new) }
        ensures trees { LeavesTrees (commands.Unmeta name.now key.now) (result_of result) self.old self.new }
    {
        match self.grids.get_mut(name) {
            Some(entry) => {
                entry.metas.remove(key);
                Ok(())
            }
            None => Err(Refusal::NoGrid),
        }
    }

    /// Carries out a command that sets the text of a key.
    pub(crate) fn put_meta(
        &mut self,
        name: &Name,
        key: Name,
        text: MetaText,
    ) -> Result<Answer<'static>, Refusal>
        ensures step { CarriesOut (scene_of self.old) (commands.Meta name.now key text) result (scene_of self.new) }
        ensures trees { LeavesTrees (commands.Meta name.now key text) (answer_of result) self.old self.new }
    {
        self.set_meta(name, key, text)?;
        Ok(Answer::Done)
    }

    /// Carries out a command that removes a pair.
    pub(crate) fn take_meta(&mut self, name: &Name, key: &Name) -> Result<Answer<'static>, Refusal>
        ensures step { CarriesOut (scene_of self.old) (commands.Unmeta name.now key.now) result (scene_of self.new) }
        ensures trees { LeavesTrees (commands.Unmeta name.now key.now) (answer_of result) self.old self.new }
    {
        self.remove_meta(name, key)?;
        Ok(Answer::Done)
    }

    /// Carries out a command that asks for the pairs.
    pub(crate) fn pairs(&self, name: &Name) -> Result<Answer<'_>, Refusal>
        ensures { CarriesOut (scene_of self.now) (commands.Metas name.now) result (scene_of self.now) }
    {
        let Some(entry) = self.entry(name) else {
            return Err(Refusal::NoGrid);
        };
        Ok(Answer::Pairs(&entry.metas))
    }
}
