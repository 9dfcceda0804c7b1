// Laws of modules.
ghost use Rattle.std.specs.Prelude.{◌≡◌, ◌++◌, ◌∷◌, List, map, ℕ};
ghost use Rattle.kernel_lists.specs.HunkLoader.HeldModules.{HeldModules, LoadedModule, module_address};
ghost use Rattle.kernel_lists.specs.HunkLoader.LoadOutcome.{IsLoaded};
ghost use Rattle.kernel_lists.specs.HunkLoader.ModuleExchanges.{LoadExchange, UnloadExchange};
ghost use Rattle.kernel_lists.specs.HunkLoader.Modules.{HasModules};
ghost use Rattle.kernel_lists.specs.GetvecChain.Give.{given_store};
ghost use Rattle.kernel_lists.specs.LinkedList.Places.{without_node};
ghost use Rattle.kernel_lists.specs.TaskBlock.Lists.{module_link, modules_in};
ghost use Rattle.kernel_lists.specs.TaskBlock.RootWords.{first_module};

/// Where a tiled store holds the words of modules, each in a block of its size, with the head that leads to them, these are
/// its modules.
pub fn held_modules_law()
    ensures modules { (s : List ℕ) (ms : List LoadedModule) → HeldModules s ms → HasModules s }
    ensures list { (s : List ℕ) (ms : List LoadedModule) → HeldModules s ms
        → modules_in s ≡ map module_address ms }
{}

/// What a load and an unload do to the words that modules own, and to those that blocks own.
pub fn module_words_law()
    ensures load { (s t text : List ℕ) (ms : List LoadedModule) (m : ℕ)
        → HeldModules s ms → IsLoaded s t text m
        → LoadExchange s t text ms m }
    ensures unload { (s t : List ℕ) (front : List LoadedModule) (m : LoadedModule)
        (back : List LoadedModule)
        → HeldModules s (front ++ m ∷ back)
        → t ≡ given_store (without_node s module_link first_module m.address) m.address
        → UnloadExchange s t front m back }
{}
