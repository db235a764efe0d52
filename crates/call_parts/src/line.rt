// The line of a session.
ghost use Rattle.std.specs.Prelude.{◌≡◌, IfErr, IfOk, true};
ghost use Rattle.call_parts.specs.FreshLines.{fresh_line};

use handheld_server::Server;
use handheld_store::Store;
use hs_folders::Folder;
use line_script::Script;
use line_world::World;
use std::alloc::{AllocError, Global};

/// A line that does with each frame what the script says, to the handheld of a store. Without memory its folder is handed back.
pub fn line_to<H: Folder>(alloc: Global, store: Store<H>, script: Script) -> Result<World<H>, H>
    requires { store.sound ≡ true }
    ensures line { IfOk result (λ world. world
        ≡ fresh_line store.folder store.databases store.user script) }
    ensures back { IfErr result (λ folder. folder ≡ store.folder) }
{
    match World::new(alloc, Server::new(store), script) {
        Ok(world) => Ok(world),
        Err((AllocError, server)) => Err(server.into_folder()),
    }
}
