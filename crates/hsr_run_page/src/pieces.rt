//! The pieces of a page that say the same of each run.

/// What stands before the drawings of the network.
pub(crate) const FRONT: &str =
    r#"<section class="stage" aria-label="Network and time"><div class="head"><h2>Network</h2><p><span id="tally"></span><span id="unseen"></span></p>
<div class="zoom" role="group" aria-label="Size of the drawing"><button type="button" id="smaller" title="Smaller (−)" aria-label="Smaller">−</button>
<button type="button" id="larger" title="Larger (+)" aria-label="Larger">+</button></div></div>
<div class="nets">
"#;

/// What stands between these and the number of the last step: the keys that play.
pub(crate) const DECK: &str = r#"</div>
<div class="deck" role="group" aria-label="Time"><div class="buttons">
<button type="button" id="first" title="To the start (Home)" aria-label="To the start"><svg viewBox="0 0 16 16" aria-hidden="true"><path d="M3 2V14M13 2L5 8L13 14Z"/></svg></button>
<button type="button" id="back" title="One step back (←)" aria-label="One step back"><svg viewBox="0 0 16 16" aria-hidden="true"><path d="M12 2L4 8L12 14Z"/></svg></button>
<button type="button" id="play" class="main" title="Play or pause (space)" aria-label="Play"><svg viewBox="0 0 16 16" aria-hidden="true"><path class="go" d="M4 2L14 8L4 14Z"/><path class="halt" d="M4 2H7V14H4ZM9 2H12V14H9Z"/></svg></button>
<button type="button" id="step" title="One step on (→)" aria-label="One step on"><svg viewBox="0 0 16 16" aria-hidden="true"><path d="M4 2L12 8L4 14Z"/></svg></button>
<button type="button" id="next" title="To the next send (N)" aria-label="To the next send"><svg viewBox="0 0 16 16" aria-hidden="true"><path d="M13 2V14M3 2L11 8L3 14Z"/></svg></button>
<label>speed <select id="speed"><option value="0.5">½</option><option value="1" selected>1</option><option value="3">3</option><option value="10">10</option><option value="40">40</option></select></label>
<span id="clock"></span></div>
<input type="range" id="time" min="0" step="1" aria-label="Step of the run" max=""#;

/// What stands behind the strip of time: the legend, and the cards of what happens now and of what is chosen.
pub(crate) const LEGEND: &str = r#"</div>
<div class="legend" role="group" aria-label="Legend"><span class="k up"><svg viewBox="0 0 34 12" aria-hidden="true"><path class="way" d="M1 6H26"/><path class="tip" d="M27 6l-8 4v-8z"/><circle class="dot" cx="28" cy="6" r="4.5"/></svg><span>taken up</span></span>
<span class="k on"><svg viewBox="0 0 34 12" aria-hidden="true"><path class="way" d="M1 6H26"/><path class="tip" d="M33 6l-9 4v-8z"/></svg><span>only sent on</span></span>
<span class="k dup"><svg viewBox="0 0 34 12" aria-hidden="true"><path class="way" d="M1 6H26"/><path class="tip" d="M33 6l-9 4v-8z"/></svg><span>second copy, dropped</span></span>
<span class="k ret"><svg viewBox="0 0 34 12" aria-hidden="true"><path class="way" d="M1 6H26"/><path class="tip" d="M33 6l-9 4v-8z"/></svg><span>back at its sender</span></span>
<span class="k oth"><svg viewBox="0 0 34 12" aria-hidden="true"><path class="way" d="M1 6H26"/><path class="tip" d="M33 6l-9 4v-8z"/></svg><span>not for this way</span></span>
<span class="k lost"><svg viewBox="0 0 34 12" aria-hidden="true"><path class="way" d="M1 6H20"/><path class="gone" d="M18 2l8 8m0 -8l-8 8"/></svg><span>lost</span></span>
<span class="k down"><svg viewBox="0 0 34 12" aria-hidden="true"><path class="wire" d="M1 6H33"/><path class="bar" d="M13 2l8 8m0 -8l-8 8"/></svg><span>link down</span></span></div>
<div class="now-card"><h2>Now</h2><ol id="now" aria-live="off"></ol></div></section>
<aside aria-label="What is chosen"><section class="card"><h2 id="send-title">Chosen send</h2><div id="send"><p class="hint">Choose a send in the list: the network then shows its copies alone, on all their ways.</p></div></section>
<section class="card"><h2 id="node-title">Chosen node</h2><div id="node"><p class="hint">Choose a node in the network to see its counters and what its tables hold now.</p></div></section></aside>
"#;

/// What the foot of a page begins with.
pub(crate) const FOOT: &str =
    r#"</main><footer><p>Steps stand in the order of hsr_view picture: entries of different nodes that no copy joins may have been in another order. "#;

/// What it says where a scenario was handed in.
pub(crate) const CUTS: &str =
    r#"Cuts, mends and drains are those of the scenario that --names hands in: the record of a run tells of lost copies alone."#;

/// What it says where none was.
pub(crate) const NO_CUTS: &str =
    r#"Without --names cuts, mends and drains are not shown, only which copies were lost."#;

/// What it ends with: the keys.
pub(crate) const KEYS: &str = r#"</p>
<p class="help"><kbd>space</kbd> play, <kbd>←</kbd> <kbd>→</kbd> step, <kbd>Home</kbd> <kbd>End</kbd>, <kbd>N</kbd> <kbd>P</kbd> next send and the one before, <kbd>↑</kbd> <kbd>↓</kbd> in the list, <kbd>/</kbd> find, <kbd>+</kbd> <kbd>−</kbd> size, <kbd>Esc</kbd> all copies again</p></footer>
"#;
