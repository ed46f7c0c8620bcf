//! The script of a page.

/// The script of the page of a run, as a browser runs it. It loads nothing, and forms no HTML of texts.
pub(crate) const SCRIPT: &str = r#"'use strict';
/* The script of a run's page. It reads the data block and moves what the page holds already. Texts go in by textContent alone, so it
   forms no HTML of them. Without it the page shows the network, the lists and the report. */
(function () {
  // the most that is shown at once of each kind; what is left out is counted beside it
  const MOST = {tokens: 240, labels: 8, lines: 40, ways: 40, receivers: 20, notes: 8, known: 16, beside: 6, bars: 6};
  /** The element with an id. */
  const byId = name => document.getElementById(name);
  /** All elements inside of one that fit a selector, as a list. */
  const all = (where, selector) => Array.from(where.querySelectorAll(selector));
  /** A new element with a class and a text. */
  function make(tag, cls, text) {
    const element = document.createElement(tag);
    if (cls) element.className = cls;
    if (text !== undefined) element.textContent = text;
    return element;
  }
  /** A new SVG element with attributes. */
  function shape(tag, attributes) {
    const element = document.createElementNS('http://www.w3.org/2000/svg', tag);
    for (const key in attributes) element.setAttribute(key, attributes[key]);
    return element;
  }
  /** A number in groups of three digits. */
  const grouped = number => String(number).replace(/\B(?=(\d{3})+$)/g, '\u202f');
  /** A moment in milliseconds, to the microsecond. */
  function moment(at) {
    const [whole, rest] = data.unit === 'ms' ? [at, 0] : [Math.floor(at / 1000), at % 1000];
    return grouped(whole) + (rest ? '.' + String(rest).padStart(3, '0') : '') + ' ms';
  }
  /** Each of some things in a form, at most so many, and behind them how many more there are. */
  const atMost = (things, most, form, rest) => things.slice(0, most).map(form).concat(things.length > most ? [rest('and ' + grouped(things.length - most) + ' more')] : []);
  // ---- the data block: a 0 ends each list and each row, -1 is none, and `node:place` names entries and sends
  /** What the data block says, with entries and sends by their places in lists. */
  function unpacked(raw) {
    const list = key => raw[key].slice(0, -1), placed = rows => new Map(rows.map(([node, place], k) => [node + ':' + place, k])), marks = [];
    const spots = placed(list('entries')), probes = placed(list('sends')), at = (places, node, place) => places.get(node + ':' + place) ?? -1;
    const nodes = list('nodes').map(([name, role, mode, macs]) => ({name, role, mode, macs: macs.slice(0, -1)}));
    const owner = new Map(nodes.flatMap(node => node.macs.map(mac => [mac, node.name])));
    const entries = list('entries').map(row => entryOf(row, marks, nodes, (node, place) => at(probes, node, place)));
    const sends = list('sends').map(row => sendOf(row, entries[at(spots, row[0], row[1])], nodes, owner));
    const copies = list('copies').map(([link, way, fate, n, p, to, judged]) => [link, way[0], fate, entries[at(spots, n, p)]?.[4] ?? -1, at(spots, n, p), at(spots, to, judged), to]);
    const planned = [], own = [...entries.keys()].filter(k => entries[k][3] !== 'a');
    list('planned').forEach((number, k) => { planned[number] = own[k]; });
    return {unit: 'us', forget: 400000, table: raw.table, nodes, links: list('links'), marks, sends, entries, planned: Array.from(planned, entry => entry ?? -1), downs: list('downs'),
      drains: list('drains'), copies: copies.filter(([, , , send, , arrival, to]) => send >= 0 && (to < 0 || arrival >= 0)), known: entries.flatMap((entry, k) => learned(entry, k, sends, nodes))};
  }
  /** An entry: [node, place, mark, kind, send, port, look, up, out, noted, number]. The marks grow by its moment and step, where they are new. */
  function entryOf([node, place, moment, step, event, n, p, port, cause, up, out, number], marks, nodes, probe) {
    const last = marks[marks.length - 1], kind = {send: 's', life: 'l', arrive: 'a', age: 'g'}[event], isArrival = kind === 'a', passes = up ? 'U' + out : out;
    if (!last || last[0] !== moment || last[1] !== step) marks.push([moment, step]);
    const look = cause === 'passed' ? (up ? 'up' : 'on') : {duplicate: 'dup', returned: 'ret'}[cause] || (isArrival ? 'oth' : '');
    // a node remembers what it passed, and a RedBox at its interlink what it gave a number, there too
    const isInner = isArrival && port === 'I', remembers = isArrival && !isInner ? cause === 'passed' && nodes[node].role !== 'station' : number >= 0;
    const send = isArrival ? probe(n, p) : kind === 'g' ? -1 : probe(node, place);
    return [node, place, marks.length - 1, kind, send, port, look, up, out, remembers ? (isArrival ? passes : out) + (isInner ? 'I' : '') : '', number];
  }
  /** A send, by its row and its entry. */
  function sendOf([n, p, at, dst, from, vlan, type, len, about, due, missed, twice, strayed, lost], entry, nodes, owner) {
    const some = number => number < 0 ? null : number, isLife = type < 0, ok = !missed.length && !twice.length && !strayed.length;
    const kinds = {2048: 'IPv4', 35000: 'GOOSE', 35002: 'sampled values', 35063: 'PTP', 35067: 'supervision'};
    const what = isLife ? 'supervision' + (about ? ' of ' + about : '') : kinds[type] || type.toString(16).toUpperCase().padStart(4, '0');
    return {n, p, at, m: entry ? entry[2] : 0, to: isLife ? 'all' : owner.get(dst) || dst, what, vlan: some(vlan), len: some(len), num: entry ? some(entry[10]) : null, due, missed, twice, strayed, lost, ok,
      isLife, about, source: nodes[n].macs[from] || nodes[n].macs[0]};
  }
  /** What a node learns with an entry: at a ring port of whom supervision of others is, and behind which RedBox; at an interlink who sent. */
  function learned([node, , , kind, send, port], k, sends, nodes) {
    const said = sends[send], role = nodes[node].role;
    if (kind !== 'a' || !said || said.n === node || (role !== 'danh' && role !== 'redbox')) return [];
    if (port === 'I') return [[k, said.source, '']];
    return said.isLife ? [[k, said.about || said.source, said.about ? said.source : '']] : [];
  }
  document.documentElement.classList.add('js');
  const data = unpacked(JSON.parse(document.getElementById('data').textContent));
  run();
  // ---- the page of a run
  /** Shows the run of the data block, step by step. */
  function run() {
    const {nodes, links, marks, sends} = data;
    const last = marks.length - 1, reduced = matchMedia('(prefers-reduced-motion: reduce)');
    const FATE = {up: 'taken up', on: 'sent on', dup: 'second copy, dropped', ret: 'back at its sender, dropped', oth: 'not for this way, dropped',
      down: 'lost: the link was down', cut: 'lost: the link was cut', overrun: 'lost: the queue was full'};
    // a copy under way has a form for each fate too, so that no colour is needed
    const FORM = {up: 'M-6 0A6 6 0 1 1 6 0A6 6 0 1 1 -6 0Z', on: 'M8 0L-5 -6L-2 0L-5 6Z', dup: 'M-5 0A5 5 0 1 1 5 0A5 5 0 1 1 -5 0Z', ret: 'M-5 -5H5V5H-5Z',
      oth: 'M0 -7L7 0L0 7L-7 0Z', lost: 'M-7 -4L-4 -7L0 -3L4 -7L7 -4L3 0L7 4L4 7L0 3L-4 7L-7 4L-3 0Z'};
    const LOST_AT = 0.42; // the part of a lane at which the drawing has its cross
    const ROLE = {danh: 'DANH', redbox: 'RedBox', quadbox: 'QuadBox', station: 'Station'};
    const PORTS = {danh: 'AB', redbox: 'ABI', quadbox: 'ABCD', station: 'P'};
    const entries = data.entries.map(([node, place, mark, kind, send, port, look, up, out, noted, number]) =>
      ({node, place, mark, kind, send, port, look, up, out, noted, number}));
    const copies = data.copies.map(copyOf);
    const ofNode = nodes.map(() => []), knownOf = nodes.map(() => []), atMark = marks.map(() => []), ofSend = sends.map(() => []), order = sends.map(() => 0);
    const byCause = new Map(), peer = new Map(), owner = new Map(nodes.flatMap(node => node.macs.map(mac => [mac, node.name])));
    const rows = all(byId('sends'), 'tbody tr'), words = rows.map(row => row.textContent.toLowerCase());
    const state = {mark: last, t: last + 0.5, isPlaying: false, send: -1, node: -1, before: 0, end: last, zoom: 1};
    // ---- reading the data
    /** A copy of the data: its lane, what became of it, and between which marks it is under way. */
    function copyOf([link, dir, fate, send, cause, arrival]) {
      const from = entries[cause].mark, isLost = arrival < 0;
      return {link, dir, lane: link + dir, fate, send, cause, arrival, isLost, look: isLost ? 'lost' : entries[arrival].look, from,
        to: isLost ? from + 1 : Math.max(entries[arrival].mark, from + 1), rank: 0};
    }
    /** Lists entries by node and mark, copies by send and cause, and ports by their ends; tells which copy of its send on its lane each copy is. */
    function index() {
      entries.forEach(entry => { ofNode[entry.node].push(entry); atMark[entry.mark].push(entry); });
      links.forEach(([a, p, b, q], link) => { peer.set(a + '.' + p, [b, q, link]); peer.set(b + '.' + q, [a, p, link]); });
      for (const copy of copies) {
        copy.rank = ofSend[copy.send].filter(other => other.lane === copy.lane).length;
        ofSend[copy.send].push(copy);
        byCause.set(copy.cause, (byCause.get(copy.cause) || []).concat(copy));
      }
      data.planned.forEach((entry, k) => { if (entry >= 0 && entries[entry].send >= 0) order[entries[entry].send] = k; });
      for (const [entry, mac, redbox] of data.known) knownOf[entries[entry].node].push({entry: entries[entry], mac, redbox});
    }
    /** The marks of some entries, those that are not in the page left out. */
    const marksOf = list => list.filter(entry => entry >= 0).map(entry => entries[entry].mark);
    /** The mark of the last planned entry before some count of them, or -1. */
    const markBefore = count => marksOf(data.planned.slice(0, count)).pop() ?? -1;
    /** When links go down and come up again: {link, isDown, mark, isLate}; late is behind the entries of that mark, else it is before them. */
    function turnsOf() {
      const found = [], ends = new Map();
      for (const [link, at, count, end, endCount] of data.downs) {
        const since = ends.get(link) || 0, mine = from => copies.filter(copy => copy.link === link && copy.from >= from);
        const cut = turnAt(at, count, since, mine(since), true);
        found.push({link, isDown: true, ...cut});
        if (end < 0) continue;
        const mend = turnAt(end, endCount, cut.mark, mine(cut.mark + cut.isLate), false);
        found.push({link, isDown: false, mark: mend.mark, isLate: mend.isLate || (mend.mark === cut.mark && cut.isLate)});
        ends.set(link, mend.mark);
      }
      return found;
    }
    /** The place of a turn: after the planned entry before it, its moment, and what was lost of sends before it; after a drain, with the next planned entry. */
    function turnAt(at, count, least, mine, isCut) {
      const next = marksOf(data.planned.slice(count))[0] ?? last + 1, clock = marks.filter(mark => mark[0] < at).length;
      const latest = list => Math.max(-1, ...list.map(copy => copy.from)), fates = (list, ...of) => list.filter(copy => of.includes(copy.fate));
      const early = mine.filter(copy => order[copy.send] < count), lost = latest(fates(early, isCut ? 'cut' : 'down'));
      const isDrained = count === 0 || data.drains.some(drain => drain[1] === count);
      if (isDrained && !fates(early, 'cut', isCut ? 'down' : 'ok').length) {
        const first = Math.min(last + 1, ...fates(mine, 'down').map(copy => copy.from));
        const mark = isCut ? Math.min(first, Math.max(next, latest(early) + 1)) : Math.max(next, lost + 1);
        return mark > last ? {mark: last, isLate: true} : {mark, isLate: false};
      }
      const late = Math.max(markBefore(count), least, lost, 0);
      return clock > late + (lost === late) && clock <= last ? {mark: clock, isLate: false} : {mark: clock > last ? last : late, isLate: true};
    }
    /** A drawing of the network: its lanes, nodes and links. The page holds a wide and a tall one, and the style shows one of them. */
    function readNet(svg) {
      const lanes = new Map(all(svg, '.lane').map(group => [group.dataset.lane + ' 0', laneOf(group)]));
      return {svg, lanes, nodes: numbered(svg, 'node'), links: numbered(svg, 'link'), tokens: svg.querySelector('.tokens'), pool: [], isSeen: true};
    }
    /** The groups of a kind in a drawing, by their numbers. */
    const numbered = (svg, kind) => all(svg, '.' + kind).reduce((found, group) => { found[Number(group.dataset[kind])] = group; return found; }, []);
    /** A lane: its group, and points of its path, which are measured when they are wanted. */
    const laneOf = group => ({group, points: null, cls: group.getAttribute('class')});
    // ---- lanes
    /** Measures 65 points of a lane, for a browser takes long to find one on a path. */
    function measure(lane) {
      const way = lane.group.querySelector('.way'), long = way.getTotalLength();
      lane.points = Array.from({length: 65}, (_, k) => way.getPointAtLength(long * k / 64));
    }
    /** Where a lane is at a part of it, and its direction there, as [x, y, dx, dy]. */
    function pointOn(lane, part) {
      if (!lane.points) measure(lane);
      const k = Math.min(63, Math.floor(part * 64)), a = lane.points[k], b = lane.points[k + 1], rest = part * 64 - k;
      const far = Math.hypot(b.x - a.x, b.y - a.y) || 1;
      return [a.x + (b.x - a.x) * rest, a.y + (b.y - a.y) * rest, (b.x - a.x) / far, (b.y - a.y) / far];
    }
    /** The path on the left of a lane, some units away, from its begin to a part of it. */
    function pathBeside(lane, away, to) {
      return 'M' + Array.from({length: 65}, (_, k) => {
        const [x, y, dx, dy] = pointOn(lane, to * k / 64);
        return (x + dy * away).toFixed(1) + ' ' + (y - dx * away).toFixed(1);
      }).join('L');
    }
    /** The lane of a copy in a drawing. Where copies of a send come to a lane again, as after `forgot`, theirs are made beside it: on the left, away from the wire. */
    function laneAt(net, copy) {
      const rank = state.send < 0 ? 0 : Math.min(copy.rank, MOST.beside - 1), name = copy.lane + ' ' + rank;
      if (net.lanes.has(name)) return net.lanes.get(name);
      const first = net.lanes.get(copy.lane + ' 0'), group = first.group.cloneNode(true), away = 5 * rank;
      group.dataset.rank = rank;
      group.querySelector('.way').setAttribute('d', pathBeside(first, away, 1));
      group.querySelector('.part').setAttribute('d', pathBeside(first, away, LOST_AT));
      for (const [selector, at] of [['.tip', 1], ['.dot', 1], ['.gone', LOST_AT]]) {
        const [, , dx, dy] = pointOn(first, at);
        group.querySelector(selector).setAttribute('transform', 'translate(' + (dy * away).toFixed(1) + ' ' + (-dx * away).toFixed(1) + ')');
      }
      first.group.after(group);
      net.lanes.set(name, laneOf(group));
      return net.lanes.get(name);
    }
    // ---- copies under way
    /** A mark for a copy under way, the next one of a drawing. */
    function token(net) {
      const group = shape('g', {});
      group.append(shape('path', {}), shape('text', {y: -10}));
      return net.tokens.appendChild(group);
    }
    /** Whether a copy or an entry is of those that are shown. */
    const isShown = what => state.send < 0 || what.send === state.send;
    /** Draws the copies that are under way at a time between two marks. */
    function drawTokens(t) {
      const here = copies.filter(copy => copy.from <= t && t < copy.to && isShown(copy)), some = here.slice(0, MOST.tokens);
      for (const net of nets.filter(n => n.isSeen)) {
        some.forEach((copy, place) => drawToken(net, place, copy, (t - copy.from) / (copy.to - copy.from), some.length <= MOST.labels));
        net.pool.slice(some.length).forEach(group => group.setAttribute('display', 'none'));
      }
      byId('unseen').textContent = here.length > some.length ? ', of which ' + grouped(some.length) + ' are drawn' : '';
    }
    /** Draws a copy at a part of its way: one that is lost stops where its lane has the cross. */
    function drawToken(net, place, copy, part, isLabelled) {
      const group = net.pool[place] = net.pool[place] || token(net), lane = laneAt(net, copy);
      const [x, y, dx, dy] = pointOn(lane, copy.isLost ? Math.min(LOST_AT, part * 2 * LOST_AT) : part);
      group.setAttribute('class', 'token ' + copy.look);
      group.setAttribute('transform', 'translate(' + x.toFixed(1) + ' ' + y.toFixed(1) + ')');
      group.firstChild.setAttribute('d', FORM[copy.look]);
      group.firstChild.setAttribute('transform', copy.look === 'on' ? 'rotate(' + (Math.atan2(dy, dx) * 180 / Math.PI).toFixed(1) + ')' : '');
      const label = isLabelled && state.send < 0 ? nameOf(copy.send) : '';
      if (group.lastChild.textContent !== label) group.lastChild.textContent = label;
      group.removeAttribute('display');
    }
    // ---- what stays while a step lasts
    /** The links that are down while a step is shown: a cut behind its entries shows at once, and a mend behind them at the next step. */
    function downAt(mark) {
      const down = new Set();
      for (const turn of turns) {
        if (turn.isDown && turn.mark <= mark) down.add(turn.link);
        if (!turn.isDown && turn.mark + turn.isLate <= mark) down.delete(turn.link);
      }
      return down;
    }
    /** Draws the links that are down, the ways of the chosen send, and who sent, got and missed it. */
    function drawNetwork() {
      const down = downAt(state.mark), mine = state.send < 0 ? [] : ofSend[state.send];
      const got = nodes.map(() => 0);
      for (const copy of mine) if (copy.look === 'up' && copy.to <= state.mark) got[entries[copy.arrival].node]++;
      for (const net of nets) {
        net.links.forEach((group, link) => group.classList.toggle('down', down.has(link)));
        net.nodes.forEach((group, node) => drawNodeOf(group, node, got[node], down));
        drawWays(net, mine);
      }
    }
    /** Draws each copy of the chosen send on its lane, those to come paler. */
    function drawWays(net, mine) {
      const ways = new Map();
      for (const copy of mine.filter(copy => copy.rank < MOST.beside)) ways.set(laneAt(net, copy), 'lane seen ' + copy.look + (copy.from > state.mark ? ' later' : ''));
      for (const lane of net.lanes.values()) {
        const cls = ways.get(lane) || 'lane';
        if (lane.cls !== cls) lane.group.setAttribute('class', lane.cls = cls);
      }
    }
    /** Draws a node: whether it sent, got or missed the chosen send, is chosen itself, or has no link that is up. */
    function drawNodeOf(group, node, got, down) {
      const send = sends[state.send] || {due: [], missed: []}, ends = endsOf(node).filter(([, end]) => end);
      const isSource = send.n === node, isOff = ends.length > 0 && ends.every(([, end]) => down.has(end[2])), isMissing = state.mark === last && send.missed.includes(node);
      const isWrong = isMissing || got > 1 || (got > 0 && !send.due.includes(node));
      for (const [cls, is] of [['source', isSource], ['got', got && !isWrong], ['missed', isWrong], ['off', isOff]]) group.classList.toggle(cls, Boolean(is));
      group.querySelector('.tag').textContent = isMissing ? '✗' : got > 1 ? got + '×' : got ? (isWrong ? '!' : '✓') : '';
      group.setAttribute('aria-pressed', String(state.node === node));
      const said = [isSource && 'sender', isMissing ? 'missed it' : got > 1 ? 'took it up ' + got + ' times' : got && 'took it up', isOff && 'off'];
      group.setAttribute('aria-label', [nodes[node].name, ROLE[nodes[node].role], ...said.filter(Boolean)].join(', '));
    }
    // ---- words
    /** A send by its node and place: "n0:3". */
    const nameOf = send => nodes[sends[send].n].name + ':' + sends[send].p;
    /** An address, with the node that has it. */
    const addressOf = mac => mac + (owner.has(mac) ? ' (' + owner.get(mac) + ')' : '');
    /** A link by its number and ends. */
    const linkName = link => 'link ' + link + ', ' + nodes[links[link][0]].name + '.' + links[link][1] + ' to ' + nodes[links[link][2]].name + '.' + links[link][3];
    /** The links of a node, as [node, port, link] of their other ends by its own port: null where there is none. */
    const endsOf = node => [...PORTS[nodes[node].role]].map(port => [port, peer.get(node + '.' + port) || null]);
    /** What an entry was, in a sentence. */
    function say(entry) {
      const name = nodes[entry.node].name, out = [...entry.out].map(port => port === 'I' ? 'the interlink' : port).join(' and ');
      if (entry.kind === 'g') return name + ' forgets what is expired';
      if (entry.kind === 's') return name + ' sends ' + nameOf(entry.send) + ' to ' + sends[entry.send].to + (out ? ', by ' + out : '');
      if (entry.kind === 'l') return name + ' tells that it lives (' + nameOf(entry.send) + ')' + (out ? ', by ' + out : '');
      const fate = entry.look === 'up' ? 'taken up' + (out ? ' and sent on by ' + out : '') : entry.look === 'on' ? 'sent on by ' + out : FATE[entry.look];
      return name + ' gets ' + nameOf(entry.send) + ' at ' + (entry.port === 'I' ? 'its interlink' : entry.port) + ': ' + fate;
    }
    /** What was lost, in a sentence. */
    function sayLost(copy) {
      const from = copy.dir === 'f' ? 0 : 2, link = links[copy.link];
      return nameOf(copy.send) + ' from ' + nodes[link[from]].name + ' to ' + nodes[link[2 - from]].name + ': ' + FATE[copy.fate];
    }
    /** A line for a link that goes down or comes up again. */
    const sayTurn = turn => item('lost', linkName(turn.link) + (turn.isDown ? ': goes down' : ': is up again'));
    /** Lists what happens in this step: turns of links, entries, losses, drains. */
    function drawNow() {
      const mark = state.mark, here = atMark[mark].filter(isShown), lost = copies.filter(copy => copy.isLost && copy.from === mark && isShown(copy));
      const turned = isLate => turns.filter(turn => turn.mark === mark && turn.isLate === isLate).map(sayTurn);
      const lines = [...turned(false), ...atMost(here, MOST.lines, entry => item(entry.look || (entry.kind === 'g' ? 'ret' : ''), say(entry)), more => item('', more)),
        ...atMost(lost, MOST.lines, copy => item('lost', sayLost(copy)), more => item('lost', more + ' are lost')), ...turned(true)];
      if (drains.includes(mark)) lines.push(item('', 'the scenario drains: all that is on its way comes to its end'));
      if (!lines.length) lines.push(item('', state.send < 0 ? 'nothing' : 'nothing of ' + nameOf(state.send) + ' in this step'));
      byId('now').replaceChildren(...lines);
    }
    /** A line of a list, whose edge has the colour of a fate. */
    function item(cls, text) {
      const line = make('li', cls);
      line.append(make('span', '', text));
      return line;
    }
    /** Counts copies till now: put, taken, lost, under way. */
    function drawTally() {
      const mine = copies.filter(copy => isShown(copy) && copy.from <= state.mark), lost = mine.filter(copy => copy.isLost).length;
      const taken = mine.filter(copy => !copy.isLost && copy.to <= state.mark).length;
      byId('tally').textContent = 'copies: put ' + grouped(mine.length) + ', taken ' + grouped(taken) + ', lost ' + grouped(lost) + ', under way ' + grouped(mine.length - taken - lost);
    }
    // ---- cards
    /** A button that chooses a send or a node. */
    function chip(text, press, cls) {
      const button = make('button', 'chip ' + (cls || ''), text);
      button.type = 'button';
      button.addEventListener('click', press);
      return button;
    }
    /** A button for a node. */
    const nodeChip = (node, text, cls) => chip(text === undefined ? nodes[node].name : text, () => chooseNode(node), cls);
    /** Adds a word and what it is to a list. */
    function told(list, word, ...what) {
      const said = make('dd');
      said.append(...what);
      list.append(make('dt', '', word), said);
    }
    /** The port that a copy left by. */
    const portOf = copy => links[copy.link][copy.dir === 'f' ? 1 : 3];
    /** The ways of a send, as [fate, text]: one from each port of its sender, and one more from each place where they part. */
    function waysOf(send) {
      const found = [], todo = ofSend[send].filter(copy => entries[copy.cause].kind !== 'a').map(copy => [copy, nodes[sends[send].n].name + '.' + portOf(copy)]);
      while (todo.length && found.length <= MOST.ways) found.push(follow(todo, ...todo.shift()));
      return found;
    }
    /** One way from a copy to its end; what parts from it goes to `todo`. */
    function follow(todo, copy, text) {
      let at = copy;
      for (;;) {
        if (at.isLost) return ['lost', text + ' → ✕ (' + FATE[at.fate] + ')'];
        const entry = entries[at.arrival], name = nodes[entry.node].name, next = byCause.get(at.arrival) || [];
        text += ' → ' + name + (entry.look === 'up' ? ' ✓' : '');
        if (!next.length) return [entry.look, text + (entry.look === 'up' ? '' : ' (' + FATE[entry.look] + ')')];
        todo.push(...next.slice(1).map(other => [other, 'from ' + name + '.' + portOf(other)]));
        at = next[0];
      }
    }
    /** The receivers of a send, those that missed it first. */
    function receivers(send) {
      const sorted = send.missed.concat(send.due.filter(node => !send.missed.includes(node)));
      const sign = node => send.missed.includes(node) ? '✗ ' : send.twice.includes(node) ? '2× ' : '✓ ';
      const form = node => nodeChip(node, sign(node) + nodes[node].name, send.missed.includes(node) ? 'lost' : '');
      return sorted.length ? atMost(sorted, MOST.receivers, form, String) : ['nobody here'];
    }
    /** The card of the chosen send. */
    function drawSend() {
      const box = byId('send'), send = sends[state.send];
      byId('send-title').textContent = send ? 'Send ' + nameOf(state.send) : 'Chosen send';
      if (!send) { box.replaceChildren(make('p', 'hint', 'Choose a send in the list: the network then shows its copies alone, on all their ways.')); return; }
      const list = make('dl'), ways = waysOf(state.send), unseen = ofSend[state.send].filter(copy => copy.rank >= MOST.beside).length;
      told(list, 'sent by', nodeChip(send.n), ' at ' + moment(send.at));
      told(list, 'to', send.to);
      told(list, 'what', send.what + (send.len === null ? '' : ', ' + grouped(send.len) + (send.len === 1 ? ' octet' : ' octets')) +
        (send.vlan === null ? '' : ', VLAN ' + (send.vlan & 4095) + ' priority ' + (send.vlan >> 13)));
      if (send.num !== null) told(list, 'number', String(send.num));
      told(list, 'for', ...receivers(send));
      if (send.strayed.length) told(list, 'strayed to', ...atMost(send.strayed, MOST.receivers, node => nodeChip(node), String));
      told(list, 'so it is', send.ok ? '✓ complete' : '✗ not complete');
      const shown = make('ul', 'ways');
      shown.append(...atMost(ways, MOST.ways, ([look, text]) => item(look, text), () => item('', 'and more')));
      box.replaceChildren(list, make('h3', '', 'Its ways'), shown, chip('back to its moment', () => { pause(); go(send.m); }), ' ', chip('all copies again', () => chooseSend(-1)));
      if (unseen) box.append(make('p', 'hint', 'A lane shows ' + MOST.beside + ' copies side by side at most: ' + grouped(unseen) + ' more are not drawn.'));
    }
    /** What a node did till now, as of its line in the report. */
    function countersOf(node) {
      const mine = ofNode[node].filter(entry => entry.mark <= state.mark), count = fits => mine.filter(fits).length, looks = look => count(entry => entry.look === look);
      const counters = {sent: count(entry => entry.kind === 's'), life: count(entry => entry.kind === 'l'), up: count(entry => entry.up),
        forwarded: mine.reduce((sum, entry) => sum + (entry.kind === 'a' ? entry.out.length : 0), 0), duplicate: looks('dup'), returned: looks('ret'), dropped: looks('oth')};
      return Object.keys(counters).filter(word => counters[word]).map(word => word + ' ' + grouped(counters[word])).join(', ') || 'nothing';
    }
    /** The sends that a node's duplicate table holds for a way out, the youngest first. */
    function heldBy(node, way) {
      const now = marks[state.mark][0];
      const noted = ofNode[node].filter(entry => entry.mark <= state.mark && entry.send >= 0 && entry.noted.includes(way) && now - marks[entry.mark][0] < data.forget);
      return noted.slice(-data.table).reverse().map(entry => entry.send);
    }
    /** The addresses that a node knows now, the youngest first: {mac, redbox, heard: [[port, moment]]}. It keeps 64, for 60 s (150 times 400 ms). */
    function knownBy(node, isStation) {
      const known = new Map(), now = marks[state.mark][0], isYoung = (row, at) => at - Math.max(...row.heard.values()) < data.forget * 150;
      for (const {entry, mac, redbox} of knownOf[node]) {
        if (entry.mark > state.mark || (entry.port === 'I') !== isStation) continue;
        const at = marks[entry.mark][0], old = known.get(mac), heard = old && isYoung(old, at) ? old.heard : new Map();
        known.delete(mac);
        known.set(mac, {mac, redbox, heard: heard.set(entry.port, at)});
      }
      return [...known.values()].slice(-64).filter(row => isYoung(row, now)).reverse();
    }
    /** Adds a heading and a list of known addresses to a card. */
    function tellKnown(box, title, known) {
      if (!known.length) return;
      const list = make('ul', 'known'), when = heard => [...heard].map(([port, at]) => port + ' at ' + moment(at)).join(', ');
      const say = row => item('', addressOf(row.mac) + (row.redbox ? ' behind ' + addressOf(row.redbox) : '') + ': ' + when(row.heard));
      list.append(...atMost(known, MOST.known, say, more => item('', more)));
      box.append(make('h3', '', title + ' ' + known.length), list);
    }
    /** The card of the chosen node: its links, what it did till now, and what its tables hold. */
    function drawNode() {
      const box = byId('node'), node = nodes[state.node], k = state.node;
      byId('node-title').textContent = node ? node.name : 'Chosen node';
      if (!node) return;
      const list = make('dl'), tables = make('dl'), focused = all(box, 'button').indexOf(document.activeElement);
      told(list, 'is a', ROLE[node.role] + (node.mode ? ', mode ' + node.mode : ''));
      if (node.macs.length) told(list, node.macs.length > 1 ? 'addresses' : 'address', make('span', 'mono', node.macs.join(' ')));
      for (const [port, end] of endsOf(k))
        told(list, 'port ' + port, ...(end ? ['link ' + end[2] + ' to ', nodeChip(end[0], nodes[end[0]].name + '.' + end[1])] : ['no link']));
      told(list, 'till now', countersOf(k));
      box.replaceChildren(list);
      if (node.role !== 'station') {
        for (const way of (node.role === 'quadbox' ? '' : 'U') + PORTS[node.role]) {
          const found = heldBy(k, way), held = atMost(found, MOST.notes, send => chip(nameOf(send), () => pick(send)), String);
          told(tables, (way === 'U' ? 'up' : way) + ' ' + found.length + ' of ' + data.table, ...(found.length ? held : ['empty']));
        }
        box.append(make('h3', '', 'Duplicate tables at ' + moment(marks[state.mark][0])), tables);
        tellKnown(box, 'Nodes it heard of:', knownBy(k, false));
        tellKnown(box, 'Stations it knows:', knownBy(k, true));
      }
      if (sends.some(send => send.n === k)) box.append(chip('its sends', () => { byId('sender').value = String(k); filter(); }));
      if (focused >= 0 && all(box, 'button')[focused]) all(box, 'button')[focused].focus({preventScroll: true});
    }
    // ---- choosing
    /** Shows the copies of one send alone, or of all (-1). */
    function chooseSend(send) {
      state.send = send;
      rows.forEach((row, k) => {
        row.classList.toggle('chosen', k === send);
        row.querySelector('button').setAttribute('aria-pressed', String(k === send));
      });
      const box = byId('sends').parentNode, row = rows[send];
      if (row && !row.hidden) box.scrollTop = Math.max(row.offsetTop + row.offsetHeight - box.clientHeight, Math.min(box.scrollTop, row.offsetTop - 34));
      drawSend();
      refresh();
    }
    /** Chooses a send and goes to its moment; a second time, lets it go. */
    function pick(send) {
      pause();
      chooseSend(send === state.send ? -1 : send);
      if (state.send >= 0) go(sends[send].m);
    }
    /** Shows a node's counters and tables; a second time, lets it go. */
    function chooseNode(node) {
      state.node = state.node === node ? -1 : node;
      if (state.node < 0) byId('node').replaceChildren(make('p', 'hint', 'Choose a node in the network to see its counters and what its tables hold now.'));
      refresh();
    }
    /** Draws all that depends on the step. */
    function refresh() {
      drawNetwork();
      drawNow();
      drawNode();
      drawTally();
      drawTokens(reduced.matches ? state.mark + 0.5 : state.t);
      const text = 'at ' + moment(marks[state.mark][0]) + ', step ' + grouped(state.mark + 1) + ' of ' + grouped(last + 1);
      byId('time').value = String(state.mark);
      byId('time').setAttribute('aria-valuetext', text);
      byId('clock').textContent = text;
      for (const x of ['x1', 'x2']) document.querySelector('.strip .now').setAttribute(x, across(state.mark));
    }
    /** Where a mark stands on the strip. */
    const across = mark => (last ? Math.min(mark / last, 1) * 100 : 0).toFixed(2) + '%';
    /** Goes to a step. */
    function go(mark) {
      state.mark = Math.max(0, Math.min(last, mark));
      state.t = state.mark + 0.5;
      refresh();
    }
    // ---- playing
    /** One picture of the play: copies move between steps, the rest changes with them. */
    function frame(time) {
      if (!state.isPlaying) return;
      // a picture's moment may be one from before the key was pressed, and a hidden page's next one is far away
      state.t += Math.max(0, Math.min(time - state.before, 100)) / 700 * Number(byId('speed').value);
      state.before = time;
      if (state.t >= state.end + 0.5) { pause(); go(state.end); return; }
      const mark = Math.floor(state.t);
      if (mark !== state.mark) { state.mark = mark; refresh(); } else if (!reduced.matches) drawTokens(state.t);
      requestAnimationFrame(frame);
    }
    /** Plays from here to the end: of the chosen send where one is chosen. From the end on it plays anew. */
    function play() {
      const mine = state.send < 0 ? [] : ofSend[state.send], begin = mine.length ? sends[state.send].m : 0;
      state.end = mine.length ? Math.min(last, mine.reduce((most, copy) => Math.max(most, copy.to), 0)) : last;
      if (state.mark >= state.end || state.mark < begin) go(begin);
      state.before = performance.now();
      setPlaying(true);
      requestAnimationFrame(frame);
    }
    /** Has the play key say what it does, and readers told of each step where nothing plays. */
    function setPlaying(isPlaying) {
      state.isPlaying = isPlaying;
      byId('play').classList.toggle('playing', isPlaying);
      byId('play').setAttribute('aria-label', isPlaying ? 'Pause' : 'Play');
      byId('now').setAttribute('aria-live', isPlaying ? 'off' : 'polite');
    }
    /** Stops the play. */
    const pause = () => setPlaying(false);
    /** Plays, or stops the play. */
    const toggle = () => state.isPlaying ? pause() : play();
    /** Goes some steps on or back, by hand. */
    const step = by => { pause(); go(state.mark + by); };
    /** Goes to the next send that the list shows, or to the one before. */
    function nextSend(way) {
      const seen = sends.filter((send, k) => !rows[k].hidden).map(send => send.m), here = state.mark;
      step((way > 0 ? Math.min(last, ...seen.filter(mark => mark > here)) : Math.max(0, ...seen.filter(mark => mark < here))) - here);
    }
    // ---- the list of sends
    /** Leaves the rows that fit the filter. */
    function filter() {
      const text = byId('find').value.trim().toLowerCase(), sender = byId('sender').value, isBad = byId('bad').checked;
      const seen = sends.filter((send, k) => (!isBad || !send.ok) && (sender === '' || send.n === Number(sender)) && words[k].includes(text)), shown = new Set(seen);
      rows.forEach((row, k) => { row.hidden = !shown.has(sends[k]); });
      byId('none').hidden = seen.length > 0;
      byId('count').textContent = grouped(seen.filter(send => send.ok).length) + ' of ' + grouped(seen.length) + ' complete' +
        (seen.length < sends.length ? ', ' + grouped(sends.length - seen.length) + ' not shown' : '');
    }
    /** Goes from send to send by the keys up and down. */
    function walk(event) {
      const by = {ArrowDown: 1, ArrowUp: -1}[event.key], row = event.target.closest('tbody tr');
      if (!by || !row) return;
      const here = rows.filter(r => !r.hidden), to = here[here.indexOf(row) + by];
      event.preventDefault();
      if (to) to.querySelector('button').focus();
      if (to && Number(to.dataset.send) !== state.send) pick(Number(to.dataset.send));
    }
    // ---- keys, sizes, and joining all that
    /** Keys of the whole page, where no field takes them. */
    function key(event) {
      const at = event.target, isField = at.matches('input[type=search],select'), presses = at.matches('button,summary,[role=button],input[type=checkbox]');
      if (event.ctrlKey || event.altKey || event.metaKey) return;
      if (event.key === 'Escape') { if (isField && at.value) { at.value = ''; filter(); } else chooseSend(-1); return; }
      if (isField) return;
      const name = event.key.length === 1 ? event.key.toLowerCase() : event.key;
      const does = {ArrowRight: () => step(1), ArrowLeft: () => step(-1), Home: () => step(-last - 1), End: () => step(last + 1), n: () => nextSend(1),
        p: () => nextSend(-1), '/': () => byId('find').focus(), '+': () => resize(1.25), '-': () => resize(0.8), ' ': presses ? null : toggle}[name];
      if (does) { event.preventDefault(); does(); }
    }
    /** Draws the network larger or smaller; at its first size it fits the window. */
    function resize(by) {
      state.zoom = Math.max(1, Math.min(6, Math.round(state.zoom * by * 100) / 100));
      for (const net of nets) {
        net.svg.classList.toggle('zoomed', state.zoom > 1);
        net.svg.style.width = state.zoom > 1 ? Math.round(net.svg.viewBox.baseVal.width * 1.5 * state.zoom) + 'px' : '';
      }
      byId('smaller').disabled = state.zoom <= 1;
    }
    /** Finds out which of the drawings is seen. */
    function look() {
      for (const net of nets) net.isSeen = getComputedStyle(net.svg).display !== 'none';
      drawTokens(state.t);
    }
    /** Draws drains and the time that links are down on the strip. */
    function drawStrip() {
      const now = document.querySelector('.strip .now'), lanes = [...new Set(data.downs.map(down => down[0]))].sort((a, b) => a - b);
      const line = (cls, from, to, top, low) => now.before(shape('line', {class: cls, x1: across(from), x2: across(to), y1: top, y2: low}));
      new Set(drains.map(mark => Math.round(mark / (last || 1) * 1000) * last / 1000)).forEach(mark => line('drain', mark + 0.5, mark + 0.5, 30, 35));
      lanes.slice(0, MOST.bars).forEach((link, k) => {
        turns.filter(turn => turn.link === link).forEach((turn, n, mine) => {
          const end = mine[n + 1] ? mine[n + 1].mark + mine[n + 1].isLate : last;
          if (turn.isDown) line('cutbar', turn.mark, Math.max(end, turn.mark + last / 250), 40 + 9 * k, 40 + 9 * k);
        });
      });
    }
    /** Has the keys, fields and nodes of the page do what they say. */
    function join() {
      const press = {first: () => step(-last - 1), back: () => step(-1), step: () => step(1), next: () => nextSend(1), play: toggle,
        larger: () => resize(1.25), smaller: () => resize(0.8)};
      for (const name in press) byId(name).addEventListener('click', press[name]);
      byId('time').addEventListener('input', () => { pause(); go(Number(byId('time').value)); });
      for (const name of ['find', 'sender', 'bad']) byId(name).addEventListener('input', filter);
      byId('sends').addEventListener('keydown', walk);
      byId('sends').addEventListener('click', event => { const row = event.target.closest('tbody tr'); if (row) pick(Number(row.dataset.send)); });
      for (const net of nets)
        net.nodes.forEach((group, node) => {
          group.addEventListener('click', () => chooseNode(node));
          group.addEventListener('keydown', event => { if (event.key === 'Enter' || event.key === ' ') { event.preventDefault(); event.stopPropagation(); chooseNode(node); } });
        });
      document.addEventListener('keydown', key);
      addEventListener('resize', look);
    }
    // ---- the begin: where something is missing, the page opens with it, else before the first step
    index();
    const turns = turnsOf(), drains = data.drains.map(([, count]) => Math.max(markBefore(count), 0));
    const nets = all(document, 'svg.net').map(readNet);
    join();
    filter();
    look();
    drawStrip();
    const wrong = sends.findIndex(send => !send.ok);
    if (wrong < 0) go(0); else pick(wrong);
  }
}());
"#;
