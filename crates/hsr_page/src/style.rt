//! The style of a page.

/// The style of a page, for a window of any width, in light and dark, and for paper.
pub(crate) const STYLE: &str =
    r#"/* The style of both pages. Each colour stands for a fate, and each fate has dashes and a form of its own, so that none is told by colour alone. */
:root{color-scheme:light dark;
--bg:#f6f7f9;--card:#fff;--ink:#16202b;--soft:#505c69;--line:#d5dbe2;--wire:#7d8a98;--node:#fff;--edge:#2b3948;
--up:#0f6b2c;--on:#1a57b0;--dup:#8a5000;--ret:#5b6470;--oth:#7a2a8c;--lost:#c00a26;
--pick:#ffe08a;--good:#e4f4e8;--goodink:#0d5a26;--bad:#fdeaea;--badink:#9d0b20;--focus:#0b5fff;
--mono:ui-monospace,"DejaVu Sans Mono",Consolas,monospace}
@media (prefers-color-scheme:dark){:root{
--bg:#10151b;--card:#19212a;--ink:#e8edf2;--soft:#a8b4c0;--line:#323d49;--wire:#7f8c9a;--node:#232e3a;--edge:#b9c6d3;
--up:#63d58a;--on:#82b4ff;--dup:#f0b35e;--ret:#b4bec9;--oth:#dc9cec;--lost:#ff7d87;
--pick:#453607;--good:#12361f;--goodink:#8be3a8;--bad:#42171d;--badink:#ffb0b6;--focus:#8ab4ff}}
@media (forced-colors:active){:root{
--bg:Canvas;--card:Canvas;--ink:CanvasText;--soft:CanvasText;--line:CanvasText;--wire:CanvasText;--node:Canvas;--edge:CanvasText;
--up:CanvasText;--on:CanvasText;--dup:CanvasText;--ret:CanvasText;--oth:CanvasText;--lost:CanvasText;
--pick:Canvas;--good:Canvas;--goodink:CanvasText;--bad:Canvas;--badink:CanvasText;--focus:Highlight}
#sends tr.chosen{outline:2px solid Highlight;outline-offset:-2px}
.buttons .main{forced-color-adjust:none;background:CanvasText;color:Canvas}}

/* all pages */
*{box-sizing:border-box}
html{-webkit-text-size-adjust:100%;text-size-adjust:100%}
body{margin:0;background:var(--bg);color:var(--ink);font:15px/1.45 system-ui,"Segoe UI","DejaVu Sans",Arial,sans-serif}
h1{font-size:1.45rem;line-height:1.2;margin:0;overflow-wrap:anywhere}
h2{font-size:1rem;margin:0 0 .4rem;overflow-wrap:anywhere}
h3{font-size:.88rem;margin:.6rem 0 .2rem}
p{margin:.2rem 0}
header,main,footer{max-width:1880px;margin:0 auto;padding:.8rem clamp(.6rem,2vw,1.6rem)}
header{display:flex;gap:.8rem 2rem;flex-wrap:wrap;align-items:flex-start;justify-content:space-between;padding-bottom:0}
header>div{min-width:0}
.kind{color:var(--soft);font-size:.8rem;letter-spacing:.06em;text-transform:uppercase}
.facts,.hint,footer,.keys{color:var(--soft);font-size:.87rem}
.facts,.hint,footer{overflow-wrap:anywhere}
.verdict{max-width:44rem;border-left:5px solid;border-radius:4px;padding:.45rem .8rem;font-size:.92rem;overflow-wrap:anywhere}
.verdict b{font-size:1.02rem;font-family:var(--mono)}
.verdict.good{background:var(--good);color:var(--goodink)}
.verdict.bad{background:var(--bad);color:var(--badink)}
.note{max-width:1840px;margin:.6rem clamp(.6rem,2vw,1.6rem) 0;padding:.3rem .8rem;border-left:5px solid var(--dup);overflow-wrap:anywhere}
.skip{position:absolute;left:.5rem;top:-4rem;z-index:9;background:var(--card);color:var(--ink);padding:.4rem .8rem;border-radius:0 0 6px 6px}
.skip:focus{top:0}
.aria{position:absolute;clip-path:inset(50%);width:1px;height:1px;overflow:hidden;white-space:nowrap}
main{display:grid;gap:.9rem;grid-template-columns:minmax(0,1fr);align-items:start}
.stage,.card{background:var(--card);border:1px solid var(--line);border-radius:8px;padding:.8rem;min-width:0}
aside{display:grid;gap:.9rem;grid-template-columns:minmax(0,1fr);align-content:start}
button,select,input{font:inherit;color:inherit;background:var(--card);border:1px solid var(--wire);border-radius:5px;min-height:2.1rem;padding:.1rem .5rem}
button{cursor:pointer}
button:disabled{opacity:.45;cursor:default}
:focus-visible{outline:3px solid var(--focus);outline-offset:2px}
html:not(.js) :is(.buttons,#time,aside,.now-card,.help,.bar label,.strip .now,.zoom,#tally,#unseen){display:none}
table{border-collapse:collapse;width:100%;font-size:.88rem}
th,td{text-align:left;padding:.22rem .5rem;border-bottom:1px solid var(--line);vertical-align:top}
th{font-weight:600}
.r{text-align:right;font-variant-numeric:tabular-nums;white-space:nowrap}
.mono,.report dt{font-family:var(--mono);font-size:.84rem;overflow-wrap:anywhere}
kbd{border:1px solid var(--line);border-radius:3px;padding:0 .3rem;font-size:.8rem}

/* the network */
.head{display:flex;flex-wrap:wrap;gap:.2rem 1rem;align-items:center;min-height:2rem}
.head h2{margin:0}
.head p{margin:0;color:var(--soft);font-size:.85rem;font-variant-numeric:tabular-nums}
.zoom{margin-left:auto;display:flex;gap:.3rem}
.zoom button{min-height:1.8rem;min-width:2rem;padding:0;font-weight:700}
.nets{overflow:auto;max-height:min(51vh,760px);text-align:center}
svg.net{display:block;margin:0 auto;max-width:100%;height:auto;max-height:min(51vh,760px)}
svg.net.zoomed{max-width:none;max-height:none}
svg.tall{display:none}
.wire{fill:none;stroke:var(--wire);stroke-width:2.2}
.x{display:none}
.x circle{fill:var(--card)}
.x path,.k .bar{stroke:var(--lost);stroke-width:3.2;fill:none}
.link.down .wire,.k.down .wire{stroke-dasharray:3 5;stroke:var(--lost)}
.link.down .x{display:inline}
.no,.port,.loop,.tag{font-size:10.5px;fill:var(--soft);text-anchor:middle;dominant-baseline:central}
.no{font-style:italic}
.port{font-weight:600;fill:var(--edge)}
.loop{font-size:14px}
.run .node{cursor:pointer}
.node rect{fill:var(--node);stroke:var(--edge);stroke-width:1.6}
.node .in{fill:none;stroke:var(--edge);stroke-width:1}
.node .pile{opacity:.6}
.node .name{font-size:12.5px;font-weight:600;fill:var(--ink);text-anchor:middle}
.node .tag{font-size:13px;font-weight:700;text-anchor:end;stroke:var(--card);stroke-width:3px;paint-order:stroke}
.node:focus{outline:none}
.node:focus-visible rect:not(.in){stroke:var(--focus);stroke-width:4}
.node[aria-pressed=true] rect:not(.pile):not(.in){fill:var(--pick);stroke-width:2.6}
.node.source rect:not(.pile):not(.in){stroke-width:4}
.node.got .tag{fill:var(--up)}
.node.missed .tag{fill:var(--lost)}
.node.off rect{stroke-dasharray:4 3;stroke:var(--lost)}
.ghost rect{fill:var(--card);stroke:var(--edge);stroke-dasharray:3 3}
.ghost text{font-size:12px;fill:var(--soft);text-anchor:middle}

/* copies: colour, dashes and form by what became of them */
.lane,.lane .part,.lane .gone,.lane .dot{display:none}
.lane.seen{display:inline}
.up{color:var(--up)}
.on{color:var(--on)}
.dup{color:var(--dup)}
.ret{color:var(--ret)}
.oth{color:var(--oth)}
.lost{color:var(--lost)}
.way,.part,.gone{fill:none;stroke:currentColor;stroke-width:2.4}
.gone{stroke-width:2.8}
.tip,.dot{fill:currentColor;stroke:none}
.on .way{stroke-dasharray:11 4}
.dup .way{stroke-dasharray:5 4}
.ret .way{stroke-dasharray:1.5 3.5}
.oth .way{stroke-dasharray:10 3 2 3}
.lane.up .dot,.lane.lost .part,.lane.lost .gone{display:inline}
.lane.lost .way,.lane.lost .tip{display:none}
.lane.later{opacity:.42}
.token path{stroke:var(--card);stroke-width:1.4;fill:currentColor}
.token:is(.dup,.ret) path{fill:var(--card);stroke:currentColor;stroke-width:2.2}
.token text{font-size:9px;fill:currentColor;text-anchor:middle;stroke:var(--card);stroke-width:2.5px;paint-order:stroke;font-weight:600}
.legend,.keys{display:flex;flex-wrap:wrap;gap:.15rem .9rem;font-size:.82rem;margin:.5rem 0}
.k{display:inline-flex;align-items:center;gap:.35rem;overflow-wrap:anywhere}
.legend .k span{color:var(--ink)}
.k svg{width:34px;height:12px;flex:none}

/* time */
.deck{border-top:1px solid var(--line);padding-top:.6rem}
.buttons{display:flex;flex-wrap:wrap;gap:.4rem;align-items:center}
.buttons button{min-width:2.6rem;min-height:2.4rem}
.buttons svg{width:16px;height:16px;display:block;margin:auto}
.buttons path{fill:currentColor;stroke:currentColor;stroke-width:1.6;stroke-linejoin:round}
.buttons .halt,.buttons .playing .go{display:none}
.buttons .playing .halt{display:inline}
.buttons .main{min-width:4rem;background:var(--ink);color:var(--card);border-color:var(--ink)}
#clock{font-variant-numeric:tabular-nums;font-weight:600;margin-left:auto;font-size:.92rem}
#time{width:100%;margin:.5rem 0 0;padding:0;accent-color:var(--on);display:block}
.strip{width:calc(100% - 16px);margin:.3rem 8px 0;display:block;overflow:visible}
.strip line{vector-effect:non-scaling-stroke}
.strip text{font-size:10px;fill:var(--soft);text-anchor:middle}
.strip text.first{text-anchor:start}
.moment{stroke:var(--line);stroke-width:1}
.sent{stroke:var(--ink);stroke-width:2.5}
.sent.bad{stroke:var(--lost);stroke-width:4}
.loss{stroke:var(--lost);stroke-width:2;stroke-dasharray:3 2}
.drain{stroke:var(--soft);stroke-width:3}
.cutbar{stroke:var(--lost);stroke-width:5}
.strip .now{stroke:var(--focus);stroke-width:2}
.keys svg{width:14px;height:12px}
.now-card{margin-top:.7rem}
#now{margin:0;padding:0;list-style:none;font-size:.9rem;min-height:7.2em;max-height:14em;overflow:auto;columns:2 20rem}
#now li,.ways li,.known li{padding:.05rem 0 .05rem .55rem;border-left:4px solid currentColor;margin-bottom:.2rem;break-inside:avoid;overflow-wrap:anywhere}
#now li span,.ways li span,.known li span{color:var(--ink)}

/* sends, cards, report */
.bar{display:flex;flex-wrap:wrap;gap:.4rem 1rem;align-items:center;margin-bottom:.4rem}
.bar h2{margin:0}
.check{display:inline-flex;align-items:center;gap:.3rem}
.check input{min-height:0}
#find{width:13em;max-width:100%}
#sender{max-width:9em}
#count{margin-left:auto;color:var(--soft)}
.scroll{position:relative;max-height:24rem;overflow:auto;border:1px solid var(--line);border-radius:5px}
.scroll thead th{position:sticky;top:0;background:var(--card);z-index:1}
.js #sends tbody tr{cursor:pointer}
#sends button{border:0;background:none;min-height:0;padding:.1rem .15rem;text-decoration:underline;text-underline-offset:3px;font-weight:600}
#sends tr.bad .status{color:var(--lost);font-weight:600}
#sends tr.chosen{background:var(--pick)}
#sends tr.chosen .status{color:var(--ink)}
#sends tr[hidden]{display:none}
#sends .to{white-space:nowrap}
#sends .status{min-width:8rem}
.card dl{display:grid;grid-template-columns:auto minmax(0,1fr);gap:.1rem .8rem;margin:.2rem 0;font-size:.9rem}
.card dt{color:var(--soft)}
.card dd{margin:0;overflow-wrap:anywhere}
.ways,.known{list-style:none;margin:.1rem 0 .5rem;padding:0;font-size:.87rem}
.chip{border-radius:9px;min-height:0;padding:0 .5rem;margin:.1rem .15rem .1rem 0;max-width:100%;overflow-wrap:anywhere}
.report dl{grid-template-columns:minmax(0,1fr);gap:.1rem 1.2rem;margin:.3rem 0}
.report ul{padding-left:1rem;margin:.3rem 0}
.report dt{color:var(--ink)}
.report dd{margin:0 0 .5rem;color:var(--soft);font-size:.9rem}
.report dt.last{font-weight:700}

/* the plan's page */
.plan header,.plan main,.plan footer{max-width:1180px}
.plan main{display:block}
.plan section{margin:0 0 1.1rem}
.plan h2{border-bottom:2px solid var(--ink);padding-bottom:.15rem}
.plan .nets{max-height:none}
.src{float:right;margin-left:.6rem;color:var(--soft);font-size:.78rem;font-weight:400;font-family:var(--mono)}
.tiles{display:grid;grid-template-columns:repeat(auto-fit,minmax(12.5rem,1fr));gap:.7rem;margin:.6rem 0}
.tile{border:1px solid var(--line);border-radius:6px;padding:.5rem .7rem;background:var(--card);overflow-wrap:anywhere}
.tile b{display:block;font-size:1.35rem;line-height:1.2;font-variant-numeric:tabular-nums}
.tile.good{border-left:5px solid var(--goodink)}
.tile.bad{border-left:5px solid var(--badink)}
.tile .src{float:none;display:block;margin:0}
.wide-table{overflow-x:auto}
.devices{list-style:none;margin:.3rem 0;padding:0;columns:2 18rem;column-gap:1.4rem;font-size:.86rem}
.devices li{break-inside:avoid;border-bottom:1px solid var(--line);padding:.08rem 0;overflow-wrap:anywhere}
.devices .mono{font-size:.92em}
.load{width:100%;height:auto;display:block}
.load text{font-size:11px;fill:var(--ink)}
.load .r{text-anchor:end}
.load .m{text-anchor:middle;fill:var(--soft)}
.load .mean{fill:var(--on)}
.load .peak{fill:none;stroke:var(--on);stroke-width:1.3}
.load .grid{stroke:var(--line);stroke-width:1}
.load .limit{stroke:var(--lost);stroke-width:2;stroke-dasharray:5 3}
.load .over{fill:var(--lost)}
.show{border:0;background:none;min-height:0;padding:0;font-weight:600;text-align:left;text-decoration:underline dotted;text-underline-offset:3px}
.show[aria-pressed=true]{background:var(--pick)}
td.wrong{color:var(--badink);font-weight:600}
.streams{min-width:44rem}
.matrix td,.matrix th{text-align:center;padding:.12rem .3rem}
.matrix th:first-child,.matrix td:last-child,.matrix th:last-child{text-align:left}
.matrix th:first-child{white-space:nowrap}
.matrix td:last-child{min-width:9rem}
.matrix thead th{vertical-align:bottom}
.matrix td.miss{background:var(--bad);color:var(--badink);font-weight:700}
.matrix td.off{color:var(--soft)}
tr.lit{outline:2px solid var(--focus);outline-offset:-1px}
.link.lit .wire{stroke:var(--focus);stroke-width:5;stroke-dasharray:7 4}
.node.lit rect:not(.in){stroke:var(--focus);stroke-width:4}
.sign{display:grid;grid-template-columns:repeat(3,1fr);gap:1.2rem;margin-top:1.2rem}
.sign div{border-top:1px solid var(--ink);padding-top:.2rem;margin-top:2.6rem;font-size:.85rem;color:var(--soft)}
.sum{font-family:var(--mono);font-size:.8rem;overflow-wrap:anywhere}

/* windows: two columns from 900 px, three from 1500, a telephone below 640 */
@media (min-width:900px){
.run main{grid-template-columns:minmax(0,1fr) minmax(17rem,21rem)}
.run .list,.run .report{grid-column:1}
.run aside{grid-row:1/span 3;grid-column:2;position:sticky;top:.6rem;max-height:calc(100vh - 1.2rem);overflow:auto}
.report dl{grid-template-columns:minmax(0,2fr) minmax(0,3fr)}}
@media (min-width:1500px){
.run main{grid-template-columns:minmax(0,1.25fr) minmax(0,1.25fr) minmax(19rem,22rem);grid-template-rows:auto auto 1fr}
.run .stage{grid-row:1/span 3;position:sticky;top:.6rem}
.run .list{grid-column:2;grid-row:1}
.run .report{grid-column:2;grid-row:2}
.run aside{grid-column:3}
.scroll{max-height:32rem}
.report dl{grid-template-columns:minmax(0,1fr)}
.plan header,.plan main,.plan footer{max-width:1840px}
.plan main{display:grid;grid-template-columns:minmax(0,5fr) minmax(0,6fr);gap:1.6rem}
.plan .left{position:sticky;top:.6rem}}
@media (min-width:2100px){
body{font-size:17px}
header,main,footer,.plan header,.plan main,.plan footer{max-width:2400px}}
@media (max-width:640px){
svg.wide:has(+ svg.tall){display:none}
svg.tall{display:block}
.nets,svg.net{max-height:none}
.deck{background:var(--card);margin:0 -.8rem;padding:.5rem .8rem}
.deck .keys{display:none}
.buttons{gap:.25rem}
.buttons label{font-size:.8rem}
.buttons button{min-width:2.2rem}
.buttons .main{min-width:3.2rem}
#clock{margin-left:0;width:100%;font-size:.85rem}
th,td{padding:.22rem .3rem}
#sends{font-size:.82rem}
#sends th,#sends td{padding:.22rem .25rem}
#sends .what{white-space:nowrap}
#sends .status{min-width:6rem}
.load{width:52rem;max-width:none}
.plan section{overflow-x:auto}
.src{float:none;display:block;margin:0}
.sign{grid-template-columns:1fr}}
@media (max-width:640px) and (min-height:700px){.deck{position:sticky;bottom:0;z-index:2}}
@media (max-width:360px){.buttons label{display:none}}

/* paper: A4, black on white, nothing that is pressed */
@page{size:A4;margin:14mm 13mm 17mm;@bottom-right{content:counter(page) " / " counter(pages);font:8pt sans-serif}}
@media print{
:root{color-scheme:light;
--bg:#fff;--card:#fff;--ink:#000;--soft:#3c4650;--line:#b9c1c9;--wire:#5f6b78;--node:#fff;--edge:#000;
--up:#0f6b2c;--on:#1a57b0;--dup:#8a5000;--ret:#5b6470;--oth:#7a2a8c;--lost:#c00a26;
--pick:#fff3c4;--good:#e4f4e8;--goodink:#0d5a26;--bad:#fdeaea;--badink:#9d0b20}
html{font-size:9pt}
body{font-size:1rem;line-height:1.32;print-color-adjust:exact;-webkit-print-color-adjust:exact}
header,main,footer,.plan header,.plan main,.plan footer{padding:0;max-width:none}
.stage,.card{border:0;padding:0;margin-bottom:5mm}
.run main,.plan main{display:block}
.run aside,.buttons,#time,.check,.bar label,.help,noscript,.zoom,.skip{display:none}
.deck{position:static;border:0}
.nets{overflow:visible;max-height:none}
.scroll{max-height:none;overflow:visible;border:0}
.scroll thead th{position:static}
svg.wide,svg.wide:has(+ svg.tall){display:block}
svg.wide{max-height:90mm}
svg.tall{display:none}
svg.net.zoomed{max-width:100%}
#now{min-height:0;max-height:none}
.wide-table{overflow:visible}
.streams{min-width:0}
.show{text-decoration:none}
.plan svg.wide{max-height:44mm}
.plan svg.wide.big{max-height:100mm}
.devices{columns:3}
.plan section{margin-bottom:2.6mm;overflow:visible}
.load{width:100%}
.verdict{max-width:none}
h1{font-size:12.5pt}
.tiles{grid-template-columns:repeat(4,1fr);gap:1.6mm;margin:1.6mm 0}
.tile{padding:1mm 2mm}
.tile b{font-size:10.5pt}
.tile .src{font-size:6.2pt}
.src{float:right}
.sign{grid-template-columns:repeat(3,1fr);margin-top:.4rem}
.sign div{margin-top:1.4rem}
table{font-size:.92em}
td,th{padding:.12rem .4rem}
thead{display:table-header-group}
tr,.tile,.verdict,.load,.net,.sign,.list tbody,.plan section:last-child{break-inside:avoid}
.run .list tbody{break-inside:auto}
details::details-content{content-visibility:visible;block-size:auto}
summary{list-style:none}
.hint{break-before:avoid}
dt,h2{break-after:avoid}
a{color:inherit;text-decoration:none}}
@media (prefers-reduced-motion:reduce){*{scroll-behavior:auto;transition:none}}
"#;
